// What the question answers, in document 01's numbers: the refusal's number and place, 0 0 if accepted, and how many pools, 0 beside a refusal.
ghost use Rattle.std.specs.Prelude.{◌≡◌};
ghost use Rattle.pools.specs.Outcome.{told_number, told_place, told_pools};

use grid::refusals::Refusal;

pub fn number(a: Result<usize, Refusal>) -> u8
    ensures { result ≡ told_number a }
{
    match a {
        Ok(_) => 0,
        Err(refusal) => refusal.number(),
    }
}

pub fn place(a: Result<usize, Refusal>) -> usize
    ensures { result ≡ told_place a }
{
    match a {
        Ok(_) => 0,
        Err(refusal) => refusal.place(),
    }
}

pub fn pools(a: Result<usize, Refusal>) -> usize
    ensures { result ≡ told_pools a }
{
    match a {
        Ok(pools) => pools,
        Err(_) => 0,
    }
}
