// Lines of text, word by word and number by number, on standard output or standard error: on that which is lent.
use std::io;
use whole::magnitude;

pub fn word(rt: &impl Print, text: &[u8]) -> io::Result<()> {
    rt.write_all(text)
}

// A space and a number of cells, a refusal's number or its place.
pub fn count(rt: &impl Print, n: usize) -> io::Result<()> {
    word(rt, b" ")?;
    rt.print(n)
}

// A space and an amount, which may be negative.
pub fn amount(rt: &impl Print, x: i64) -> io::Result<()> {
    if x < 0 {
        word(rt, b" -")?;
    } else {
        word(rt, b" ")?;
    }
    rt.print(magnitude(x))
}

// A line's word and an answer's number and place, 0 0 if nothing was refused.
pub fn answer(rt: &impl Print, text: &[u8], number: u8, place: usize) -> io::Result<()> {
    word(rt, text)?;
    count(rt, number as usize)?;
    count(rt, place)?;
    word(rt, b"\n")
}
