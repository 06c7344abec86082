// The requests that the arguments spell.
ghost use Rattle.std.specs.Prelude.{◌≡◌, ◌+◌, ◌<◌};
ghost use Rattle.gridread.specs.Asked.{numbers_after, width_of, place_asked, point_asked, depth_asked};

use console::arguments::arg;
use console::{decimal, signed};
use std::rt::Env;
use tunnel::Point;

// What is asked of a grid.
#[derive(Clone, Copy)]
pub enum Request {
    Place(Point),
    CellPoint(usize),
    Depth(usize, usize),
}

// The word that a request begins with.
#[derive(Clone, Copy)]
pub enum Word {
    Place,
    Point,
    Depth,
}

// How many numbers follow it.
fn numbers_after(w: Word) -> usize
    ensures { result ≡ numbers_after w }
{
    match w {
        Word::Place => 3,
        Word::Point => 1,
        Word::Depth => 2,
    }
}

// How many numbers a request was made of, 0 where it cannot be read.
pub fn width(r: Option<Request>) -> usize
    ensures { result ≡ width_of r }
{
    match r {
        Some(Request::Place(_)) => 3,
        Some(Request::CellPoint(_)) => 1,
        Some(Request::Depth(_, _)) => 2,
        None => 0,
    }
}

// An argument that is missing or longer than the text leaves no text.
fn word_at(rt: &impl Env, i: usize) -> Option<Word> {
    let mut text = [0u8; 64];
    let n = arg(rt, i, &mut text);
    match &text[..n] {
        b"place" => Some(Word::Place),
        b"point" => Some(Word::Point),
        b"depth" => Some(Word::Depth),
        _ => None,
    }
}

fn count_at(rt: &impl Env, i: usize) -> Option<u64> {
    let mut text = [0u8; 64];
    let n = arg(rt, i, &mut text);
    decimal::count(&text[..n], 18446744073709551615)
}

fn amount_at(rt: &impl Env, i: usize) -> Option<i64> {
    let mut text = [0u8; 64];
    let n = arg(rt, i, &mut text);
    signed::amount(&text[..n])
}

fn place_asked(x: Option<i64>, y: Option<i64>, z: Option<i64>) -> Option<Request>
    ensures { result ≡ place_asked x y z }
{
    let x = x?;
    let y = y?;
    let z = z?;
    Some(Request::Place(Point { x, y, z }))
}

fn point_asked(c: Option<u64>) -> Option<Request>
    ensures { result ≡ point_asked c }
{
    let c = c?;
    Some(Request::CellPoint(c as usize))
}

fn depth_asked(x: Option<u64>, y: Option<u64>) -> Option<Request>
    ensures { result ≡ depth_asked x y }
{
    let x = x?;
    let y = y?;
    Some(Request::Depth(x as usize, y as usize))
}

// The request that begins at argument `at` of `count`, where it can be read.
pub fn asked(rt: &impl Env, at: usize, count: usize) -> Option<Request>
    requires { at < count }
    ensures { at + width_of result < count }
{
    let w = word_at(rt, at)?;
    if count - at <= numbers_after(w) {
        return None;
    }
    match w {
        Word::Place => place_asked(
            amount_at(rt, at + 1),
            amount_at(rt, at + 2),
            amount_at(rt, at + 3),
        ),
        Word::Point => point_asked(count_at(rt, at + 1)),
        Word::Depth => depth_asked(count_at(rt, at + 1), count_at(rt, at + 2)),
    }
}

// Where the first request begins that cannot be read; past the arguments if there is none.
pub fn first_unreadable(rt: &impl Env, count: usize) -> usize {
    let mut at = 1;
    // Each request says how many numbers stand before the next: no range says that.
    while at < count {
        let r = asked(rt, at, count);
        if r.is_none() {
            return at;
        }
        at += 1 + width(r);
    }
    at
}
