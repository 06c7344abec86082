// One record read, run and written again, in slices that are lent for it.
use console::answers::{answered, refused};
use console::line;
use grid::Sides;
use grid::refusals::{Answer, Refusal};
use lattice::Settings;
use reading::reader;
use record::{Site, flags};
use run::running;
use std::io;
use writing::writer;

// As many bytes as both have.
fn copy(from: &[u8], to: &mut [u8]) {
    let n = from.len().min(to.len());
    to[..n].copy_from_slice(&from[..n]);
}

// Whether there is a state to hand back: refusals 7 and 8 stop a run and leave what was reached.
fn reached(a: Answer) -> bool {
    match a {
        Ok(()) => true,
        Err(refusal) => matches!(refusal, Refusal::BadFlow(_) | Refusal::BadNext(_)),
    }
}

fn tell(rt: &impl Print, count: usize, a: Answer) -> io::Result<()> {
    line::word(rt, b"run")?;
    line::count(rt, count)?;
    answered(rt, b"", a)
}

// The record of the state, where one was reached.
fn save(
    rt: &impl Print,
    is_reached: bool,
    s: Sides,
    g: Settings,
    t: Site,
    flags: &[u8],
    parts: &[i32],
    masses: &[i32],
    fills: &[u32],
    carry: &[i64],
    room: &mut [u8],
) -> io::Result<()> {
    if !is_reached {
        return Ok(());
    }
    let Ok(n) = writer::write(s, g, t, flags, parts, masses, fills, carry, room) else {
        return Ok(());
    };
    if n > room.len() {
        return Ok(());
    }
    line::word(rt, &room[..n])
}

// The run and its line; whether a state was reached. The run is lent the carry alone: poured and taken stay beside it.
fn go(
    rt: &impl Print,
    steps: usize,
    flags: &mut [u8],
    parts: &mut [i32],
    masses: &mut [i32],
    fills: &mut [u32],
    carry: &mut [i64],
    flags2: &mut [u8],
    parts2: &mut [i32],
    masses2: &mut [i32],
    fills2: &mut [u32],
    carry2: &mut [i64],
    marks: &mut [u8],
    s: Sides,
    g: Settings,
) -> io::Result<bool> {
    if carry.len() == 0 {
        return Ok(false);
    }
    let mut kept = [0i64; 1];
    kept[0] = carry[0];
    let ran = running::run(
        steps, flags, parts, masses, fills, &mut kept, flags2, parts2, masses2, fills2, carry2,
        marks, s, g,
    );
    carry[0] = kept[0];
    let a = ran.answer;
    tell(rt, ran.count, a)?;
    Ok(reached(a))
}

// The run from a set whose flags stand elsewhere, and the record where a state was reached.
fn proceed(
    rt: &impl Print,
    own: &[u8],
    steps: usize,
    flags: &mut [u8],
    parts: &mut [i32],
    masses: &mut [i32],
    fills: &mut [u32],
    carry: &mut [i64],
    flags2: &mut [u8],
    parts2: &mut [i32],
    masses2: &mut [i32],
    fills2: &mut [u32],
    carry2: &mut [i64],
    marks: &mut [u8],
    room: &mut [u8],
    s: Sides,
    g: Settings,
    t: Site,
) -> io::Result<()> {
    copy(own, flags);
    let is_reached = go(
        rt, steps, flags, parts, masses, fills, carry, flags2, parts2, masses2, fills2, carry2,
        marks, s, g,
    )?;
    save(
        rt, is_reached, s, g, t, flags, parts, masses, fills, carry, room,
    )
}

// A refused record gives one line.
pub fn play(
    rt: &impl Print,
    rec: &[u8],
    steps: usize,
    flags: &mut [u8],
    parts: &mut [i32],
    masses: &mut [i32],
    fills: &mut [u32],
    carry: &mut [i64],
    flags2: &mut [u8],
    parts2: &mut [i32],
    masses2: &mut [i32],
    fills2: &mut [u32],
    carry2: &mut [i64],
    marks: &mut [u8],
    room: &mut [u8],
) -> io::Result<()> {
    let head = reader::read(rec, parts, masses, fills, carry);
    let read = head.answer;
    if refused(read) {
        return answered(rt, b"record", read);
    }
    let own = flags::flags_of(rec, head);
    let s = head.sides;
    let g = head.settings;
    let t = head.site;
    proceed(
        rt, own, steps, flags, parts, masses, fills, carry, flags2, parts2, masses2, fills2,
        carry2, marks, room, s, g, t,
    )
}
