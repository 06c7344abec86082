// What the profile answers, in document 01's numbers: the refusal's number and place, 0 0 if accepted, and the values, 0 beside a refusal.
ghost use Rattle.std.specs.Prelude.{◌≡◌};
ghost use Rattle.profile.specs.Outcome.{profiled_number, profiled_place, wet_of, deepest_of};

use profile::Profiled;

pub fn number(a: Profiled) -> u8
    ensures { result ≡ profiled_number a }
{
    match a {
        Ok(_) => 0,
        Err(refusal) => refusal.number(),
    }
}

pub fn place(a: Profiled) -> usize
    ensures { result ≡ profiled_place a }
{
    match a {
        Ok(_) => 0,
        Err(refusal) => refusal.place(),
    }
}

// 1 if a point is deep.
pub fn wet(a: Profiled) -> u8
    ensures { result ≡ wet_of a }
{
    match a {
        Ok(Some(_)) => 1,
        Ok(None) => 0,
        Err(_) => 0,
    }
}

// The deepest point, 0 if none is deep.
pub fn deepest(a: Profiled) -> usize
    ensures { result ≡ deepest_of a }
{
    match a {
        Ok(Some(i)) => i,
        Ok(None) => 0,
        Err(_) => 0,
    }
}
