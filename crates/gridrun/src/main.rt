// gridrun K: reads one record from standard input, runs K steps, and writes a line and the record of the state reached.
#![tactic(auto)]

mod asking;
mod playing;

use console::input::read_full;
use console::line;
use console::room::room;
use std::io;

// Room for 4,096 cells; a record of so many has at most 331,884 bytes, and one byte more shows that something follows.
fn play(rt: &impl Print, rec: &[u8], steps: usize) -> io::Result<()> {
    let n = room(rec, 4096);
    let mut flags = [0u8; 4096];
    let mut parts = [0i32; 77824];
    let mut masses = [0i32; 4096];
    let mut fills = [0u32; 4096];
    let mut carry = [0i64; 3];
    let mut flags2 = [0u8; 4096];
    let mut parts2 = [0i32; 77824];
    let mut masses2 = [0i32; 4096];
    let mut fills2 = [0u32; 4096];
    let mut carry2 = [0i64; 1];
    let mut marks = [0u8; 4096];
    let mut space = [0u8; 331884];
    playing::play(
        rt,
        rec,
        steps,
        &mut flags[..n],
        &mut parts[..19 * n],
        &mut masses[..n],
        &mut fills[..n],
        &mut carry,
        &mut flags2[..n],
        &mut parts2[..19 * n],
        &mut masses2[..n],
        &mut fills2[..n],
        &mut carry2,
        &mut marks[..n],
        &mut space,
    )
}

fn main(rt: HostRuntime) -> io::Result<()> {
    let Some(steps) = asking::steps_asked(&rt) else {
        return line::word(
            &rt.stderr(),
            b"gridrun: how many steps? usage: gridrun K, K a whole number below 4294967296\n",
        );
    };
    let mut bytes = [0u8; 331885];
    let got = read_full(&mut rt.stdin(), &mut bytes)?;
    play(&rt, &bytes[..got], steps as usize)
}
