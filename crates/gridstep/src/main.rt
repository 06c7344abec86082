// gridstep: reads one record from standard input, makes one step, and prints what the grid held before and after it.
#![tactic(auto)]

mod telling;

use console::input::read_full;
use lines::records::play;
use std::io;

// One byte more than a record may have is read, so that one too long is known.
fn main(rt: HostRuntime) -> io::Result<()> {
    let mut bytes = [0u8; 65537];
    let got = read_full(&mut rt.stdin(), &mut bytes)?;
    telling::tell(&rt, play(&bytes[..got]))
}
