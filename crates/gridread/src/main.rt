// gridread REQUEST...: reads one record from standard input and answers each request on a line of its own, in their order.
//
// A request is `place X Y Z`, a survey point in whole millimetres; `point C`, a cell; or `depth X Y`, a column. A number is one decimal
// digit or more and nothing else, in at most 64 bytes; those of `place` may have a minus before them and fit an i64, the others a u64.
//
//     record NUMBER PLACE     alone: the record was refused; N above 4,096 is refused with 2
//     place cell C            the cell that holds the point
//     point X Y Z FILL        X, Y and Z each n/2, FILL n/65536: the four f32, exactly, not reduced
//     depth solid             or `depth dry`, or `depth n/65536`, the f32 likewise
//     WORD NUMBER PLACE       the request of that word was refused
//
// All requests are read before the record is: if one cannot be, or there is none, standard error says so and nothing else is written.
#![tactic(auto)]

mod asking;
mod playing;
mod telling;

use console::arguments::{arg, arg_count};
use console::input::read_full;
use console::line;
use console::room::room;
use std::io;
use std::rt::Env;

// Room for 4,096 cells; a record of so many has at most 331,884 bytes, and one byte more shows that something follows.
fn play(rt: &(impl Env + Print), rec: &[u8], count: usize) -> io::Result<()> {
    let n = room(rec, 4096);
    let mut parts = [0i32; 77824];
    let mut masses = [0i32; 4096];
    let mut fills = [0u32; 4096];
    let mut carry = [0i64; 3];
    playing::play(
        rt,
        rec,
        count,
        &mut parts[..19 * n],
        &mut masses[..n],
        &mut fills[..n],
        &mut carry,
    )
}

// How requests are written.
fn usage(err: &impl Print) -> io::Result<()> {
    line::word(
        err,
        b"usage: gridread REQUEST... < record, each REQUEST one of: place X Y Z (whole millimetres), point C, depth X Y\n",
    )
}

// The request at argument `at` cannot be read.
fn complain(rt: &impl Env, err: &impl Print, at: usize) -> io::Result<()> {
    let mut text = [0u8; 64];
    let n = arg(rt, at, &mut text);
    line::word(err, b"gridread: the request at argument")?;
    line::count(err, at)?;
    line::word(err, b" cannot be read: ")?;
    line::word(err, &text[..n])?;
    line::word(err, b"\n")
}

fn main(rt: HostRuntime) -> io::Result<()> {
    let count = arg_count(&rt);
    if count < 2 {
        return usage(&rt.stderr());
    }
    let bad = asking::first_unreadable(&rt, count);
    if bad < count {
        complain(&rt, &rt.stderr(), bad)?;
        return usage(&rt.stderr());
    }
    let mut bytes = [0u8; 331885];
    let got = read_full(&mut rt.stdin(), &mut bytes)?;
    play(&rt, &bytes[..got], count)
}
