// One record read into slices that are lent for it, and the requests answered from it.
use crate::asking::{asked, width};
use crate::telling::tell;
use console::answers::{answered, refused};
use grid::Sides;
use reading::reader;
use record::{Site, flags};
use std::io;
use std::rt::Env;

// The arguments from 1 on are requests.
fn tell_all(
    rt: &(impl Env + Print),
    s: Sides,
    t: Site,
    flags: &[u8],
    fills: &[u32],
    count: usize,
) -> io::Result<()> {
    let mut at = 1;
    // Each request says how many numbers stand before the next: no range says that.
    while at < count {
        let r = asked(rt, at, count);
        tell(rt, s, t, flags, fills, r)?;
        at += 1 + width(r);
    }
    Ok(())
}

// A refused record gives one line.
pub fn play(
    rt: &(impl Env + Print),
    rec: &[u8],
    count: usize,
    parts: &mut [i32],
    masses: &mut [i32],
    fills: &mut [u32],
    carry: &mut [i64],
) -> io::Result<()> {
    let head = reader::read(rec, parts, masses, fills, carry);
    let read = head.answer;
    if refused(read) {
        return answered(rt, b"record", read);
    }
    let own = flags::flags_of(rec, head);
    let s = head.sides;
    let t = head.site;
    tell_all(rt, s, t, own, fills, count)
}
