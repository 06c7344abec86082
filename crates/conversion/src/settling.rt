// Pass 7: filled and emptied cells come to their own, and the marks go.
ghost use Rattle.std.specs.Prelude.{◌<◌, length};
ghost use Rattle.grid.specs.State.{part_of};
ghost use Rattle.excess.specs.inner.Gifts.{RoomOf, Parts};
ghost use Rattle.conversion.specs.inner.Settled.{CellSettled, Settling, Settled};

use grid::cells::{own, paste};
use lattice::moments::density;
use walks::seeking::next_marked;

// A filled cell's mass is its density, an emptied cell is all zero.
fn settle_cell(parts: &mut [i32], masses: &mut [i32], c: usize, m: u8)
    requires { Parts (RoomOf parts.old) (part_of parts.old) c × (c < length masses.old) }
    ensures { CellSettled m c parts.old masses.old parts.new masses.new }
{
    if m == 1 {
        masses[c] = density(own(parts, c));
    } else {
        masses[c] = 0;
        paste(parts, 19 * c, [0i32; 19]);
    }
}

// Every marked cell is settled.
pub fn settle(parts: &mut [i32], masses: &mut [i32], marks: &mut [u8])
    requires { Settling parts.old masses.old marks.old }
    ensures { Settled parts.old masses.old marks.old parts.new masses.new marks.new }
{
    let mut c = 0;
    // From one marked cell to the next: no range says that.
    while c < marks.len() {
        let m = marks[c];
        if m != 0 {
            settle_cell(parts, masses, c, m);
            marks[c] = 0;
        }
        c = next_marked(marks, c + 1);
    }
}
