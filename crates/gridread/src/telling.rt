// A line for each request.
use crate::asking::Request;
use columns::column::column_depth;
use console::line;
use grid::Sides;
use record::Site;
use std::io;
use tunnel::cell::cell_point;
use tunnel::exact::{halves, shares};
use tunnel::placing::place;
use tunnel::{Depth, Point};

fn tell_place(rt: &impl Print, s: Sides, t: Site, p: Point) -> io::Result<()> {
    let origin = Point {
        x: t.x,
        y: t.y,
        z: t.z,
    };
    match place(s, t.edge, origin, p) {
        Ok(c) => {
            line::word(rt, b"place cell")?;
            line::count(rt, c)?;
            line::word(rt, b"\n")
        }
        Err(refusal) => line::answer(rt, b"place", refusal.number(), refusal.place()),
    }
}

fn tell_point(rt: &impl Print, s: Sides, fills: &[u32], c: usize) -> io::Result<()> {
    match cell_point(s, fills, c) {
        Ok(p) => {
            line::word(rt, b"point")?;
            line::count(rt, halves(p.x))?;
            line::word(rt, b"/2")?;
            line::count(rt, halves(p.y))?;
            line::word(rt, b"/2")?;
            line::count(rt, halves(p.z))?;
            line::word(rt, b"/2")?;
            line::count(rt, shares(p.fill))?;
            line::word(rt, b"/65536\n")
        }
        Err(refusal) => line::answer(rt, b"point", refusal.number(), refusal.place()),
    }
}

fn tell_depth(
    rt: &impl Print,
    s: Sides,
    flags: &[u8],
    fills: &[u32],
    x: usize,
    y: usize,
) -> io::Result<()> {
    match column_depth(s, flags, fills, x, y) {
        Ok(Depth::Solid) => line::word(rt, b"depth solid\n"),
        Ok(Depth::Dry) => line::word(rt, b"depth dry\n"),
        Ok(Depth::Deep(d)) => {
            line::word(rt, b"depth")?;
            line::count(rt, shares(d))?;
            line::word(rt, b"/65536\n")
        }
        Err(refusal) => line::answer(rt, b"depth", refusal.number(), refusal.place()),
    }
}

// A request that cannot be read has no line.
pub fn tell(
    rt: &impl Print,
    s: Sides,
    t: Site,
    flags: &[u8],
    fills: &[u32],
    r: Option<Request>,
) -> io::Result<()> {
    match r {
        Some(Request::Place(p)) => tell_place(rt, s, t, p),
        Some(Request::CellPoint(c)) => tell_point(rt, s, fills, c),
        Some(Request::Depth(x, y)) => tell_depth(rt, s, flags, fills, x, y),
        None => Ok(()),
    }
}
