// A record of any length, played in room of its own.
ghost use Rattle.std.specs.Prelude.{◌≡◌};
ghost use Rattle.lines.specs.Told.{told_of};

use crate::playing;
use crate::playing::Told;
use console::room::room;
use grid::refusals::Refusal;

// What is told of the bytes of a record, however many. Room for 862 cells, as document 01 fixes it: 65,536 bytes over the 76 of a cell's parts, rounded
// down. A record that is all interface has 92 + 81N bytes, 108 + 81N with three numbers in section 4, so that 807 cells fit; walls and empty cells take
// a byte each, and a record of more than 862 cells is refused with 2, because the reader finds its slices too short.
#[tactic(auto, using(crate::proofs::Lines::told_long))]
pub fn play(rec: &[u8]) -> Told
    ensures { result ≡ told_of rec.now }
{
    if rec.len() > 65536 {
        return playing::refuse(Err(Refusal::BadEnd(65536)));
    }
    let n = room(rec, 862);
    let mut parts = [0i32; 16378];
    let mut masses = [0i32; 862];
    let mut fills = [0u32; 862];
    let mut carry = [0i64; 3];
    let mut flags2 = [0u8; 862];
    let mut parts2 = [0i32; 16378];
    let mut masses2 = [0i32; 862];
    let mut fills2 = [0u32; 862];
    let mut carry2 = [0i64; 1];
    let mut marks = [0u8; 862];
    playing::play(
        rec,
        &mut parts[..19 * n],
        &mut masses[..n],
        &mut fills[..n],
        &mut carry,
        &mut flags2[..n],
        &mut parts2[..19 * n],
        &mut masses2[..n],
        &mut fills2[..n],
        &mut carry2,
        &mut marks[..n],
    )
}
