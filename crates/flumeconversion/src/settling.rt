// Pass 7 in the flume: filled and emptied cells come to their own, and the marks go.
ghost use Rattle.std.specs.Prelude.{◌<◌, length};
ghost use Rattle.excess.specs.inner.Gifts.{Parts};
ghost use Rattle.nine.specs.inner.Cells.{part_of9};
ghost use Rattle.flumeexcess.specs.inner.Gathered.{RoomOf9};
ghost use Rattle.flumeconversion.specs.inner.Settled.{CellSettled, Settling, Settled};

use lattice::moments::density;
use nine::cells::{own9, paste9};
use walks::seeking::next_marked;

// A filled cell's mass is its density, an emptied cell is all zero.
fn settle_cell9(parts: &mut [i32], masses: &mut [i32], c: usize, m: u8)
    requires { Parts (RoomOf9 parts.old) (part_of9 parts.old) c × (c < length masses.old) }
    ensures { CellSettled m c parts.old masses.old parts.new masses.new }
{
    if m == 1 {
        masses[c] = density(own9(parts, c));
    } else {
        masses[c] = 0;
        paste9(parts, c, [0i32; 19]);
    }
}

// Every marked cell is settled.
pub fn settle9(parts: &mut [i32], masses: &mut [i32], marks: &mut [u8])
    requires { Settling parts.old masses.old marks.old }
    ensures { Settled parts.old masses.old marks.old parts.new masses.new marks.new }
{
    let mut c = 0;
    // From one marked cell to the next: no range says that.
    while c < marks.len() {
        let m = marks[c];
        if m != 0 {
            settle_cell9(parts, masses, c, m);
            marks[c] = 0;
        }
        c = next_marked(marks, c + 1);
    }
}
