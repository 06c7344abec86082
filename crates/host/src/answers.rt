// Document 01's number and place of an answer, 0 0 if accepted.
ghost use Rattle.std.specs.Prelude.{◌≡◌};
ghost use Rattle.grid.specs.Outcome.{number_of, place_of};

use grid::refusals::Answer;

pub fn number_of(a: Answer) -> u8
    ensures { result ≡ number_of a }
{
    match a {
        Ok(()) => 0,
        Err(refusal) => refusal.number(),
    }
}

pub fn place_of(a: Answer) -> usize
    ensures { result ≡ place_of a }
{
    match a {
        Ok(()) => 0,
        Err(refusal) => refusal.place(),
    }
}
