// What an act answers, in document 01's numbers: the refusal's number and place, 0 0 if accepted, and what was moved, 0 beside a refusal.
ghost use Rattle.std.specs.Prelude.{◌≡◌};
ghost use Rattle.pumps.specs.Acts.{acted_number, acted_place, acted_moved};

use grid::refusals::Refusal;

pub fn acted_number(a: Result<i64, Refusal>) -> u8
    ensures { result ≡ acted_number a }
{
    match a {
        Ok(_) => 0,
        Err(refusal) => refusal.number(),
    }
}

pub fn acted_place(a: Result<i64, Refusal>) -> usize
    ensures { result ≡ acted_place a }
{
    match a {
        Ok(_) => 0,
        Err(refusal) => refusal.place(),
    }
}

pub fn acted_moved(a: Result<i64, Refusal>) -> i64
    ensures { result ≡ acted_moved a }
{
    match a {
        Ok(moved) => moved,
        Err(_) => 0,
    }
}
