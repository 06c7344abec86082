// Answers of the layers below, told as number and place.
ghost use Rattle.std.specs.Prelude.{◌≡◌, not};
ghost use Rattle.grid.specs.Outcome.{accepted, number_of, place_of};

use crate::line;
use grid::refusals::Answer;
use std::io;

pub fn refused(a: Answer) -> bool
    ensures { result ≡ not (accepted a) }
{
    match a {
        Ok(()) => false,
        Err(_) => true,
    }
}

fn number_of(a: Answer) -> u8
    ensures { result ≡ number_of a }
{
    match a {
        Ok(()) => 0,
        Err(refusal) => refusal.number(),
    }
}

fn place_of(a: Answer) -> usize
    ensures { result ≡ place_of a }
{
    match a {
        Ok(()) => 0,
        Err(refusal) => refusal.place(),
    }
}

// Number and place, 0 0 if accepted.
pub fn answered(rt: &impl Print, text: &[u8], a: Answer) -> io::Result<()> {
    line::answer(rt, text, number_of(a), place_of(a))
}
