// The program's text: the line of a refused record, or the lines of a state, of its step, and of the state after it.
use console::answers::{answered, refused};
use console::line;
use counts::counting::Line;
use lines::playing::Told;
use std::io;

fn state(rt: &impl Print, text: &[u8], l: Line) -> io::Result<()> {
    line::word(rt, text)?;
    line::count(rt, l.fluid)?;
    line::count(rt, l.interface)?;
    line::count(rt, l.empty)?;
    line::count(rt, l.wall)?;
    line::amount(rt, l.total)?;
    line::amount(rt, l.carry)?;
    line::word(rt, b"\n")
}

pub fn tell(rt: &impl Print, t: Told) -> io::Result<()> {
    let read = t.read;
    if refused(read) {
        return answered(rt, b"record", read);
    }
    let before = t.before;
    let step = t.step;
    let after = t.after;
    state(rt, b"before", before)?;
    answered(rt, b"step", step)?;
    state(rt, b"after", after)
}
