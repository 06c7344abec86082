// The program's arguments, byte by byte: they need not be text.
ghost use Rattle.std.specs.Prelude.{◌≤◌, length};

use std::env::FillError;
use std::rt::Env;

// How many there are. The first, at 0, is the program's name.
pub fn arg_count(rt: &impl Env) -> usize {
    let mut first = [0u8; 1];
    for i in 0..usize::MAX {
        if let Err(FillError::NotPresent) = rt.arg(i, &mut first) {
            return i;
        }
    }
    usize::MAX
}

// Puts argument `i` at the start of `text` and returns its length, or 0 where it is missing or longer than `text`.
pub fn arg(rt: &impl Env, i: usize, text: &mut [u8]) -> usize
    ensures { result ≤ length text.new }
{
    rt.arg(i, text).unwrap_or(0)
}
