// Stage 6: the excess of converted cells with no target joins the carry.
ghost use Rattle.std.specs.Prelude.{◌≡◌, ◌<◌, ◌+ℤ◌, length};
ghost use Rattle.whole.specs.Fold.{sum, tab};
ghost use Rattle.whole.specs.laws.Machine.{Within};
ghost use Rattle.grid.specs.Grid.{cells_of};
ghost use Rattle.grid.specs.inner.Passes.{low_of, offset_of};
ghost use Rattle.grid.specs.inner.Sight.{Around};
ghost use Rattle.grid.specs.State.{part_of};
ghost use Rattle.excess.specs.inner.Gifts.{RoomOf, Weighed, Straying, lost_at, stray_at};

use crate::giving::excess;
use crate::leaning::evens;
use grid::Sides;
use grid::neighbours::{low_of, offsets};
use surface::excess::total;
use walks::seeking::next_marked;

// What cell c with mark m has left for no one.
fn lost(
    flags: &[u8],
    parts: &[i32],
    masses: &[i32],
    off: &[usize; 19],
    low: usize,
    c: usize,
    m: u8,
) -> i64
    requires { Around (length flags.now) off.now low c × Weighed (RoomOf parts.now) (part_of parts.now) masses.now c }
    ensures { result ≡ lost_at flags.now (part_of parts.now) masses.now off.now low c m }
{
    if total(evens(flags, off, c - low)) == 0 {
        return excess(parts, masses, m, c);
    }
    0
}

// Pass 5: the carry, before any mass changes.
pub fn new_carry(
    flags: &[u8],
    parts: &[i32],
    masses: &[i32],
    marks: &[u8],
    carry: i64,
    s: Sides,
) -> i64
    requires { Straying s flags.now parts.now masses.now marks.now × Within carry 1000000000000 }
    ensures { result ≡ carry +ℤ sum (cells_of s) (stray_at flags.now (part_of parts.now) masses.now marks.now (tab 19 (offset_of s)) (low_of s)) }
{
    let off = offsets(s);
    let low = low_of(s);
    let mut t = carry;
    let mut c = 0;
    // On to the next mark, which only the search tells: no range says that.
    while c < marks.len() {
        let m = marks[c];
        if m != 0 {
            t += lost(flags, parts, masses, &off, low, c, m);
        }
        c = next_marked(marks, c + 1);
    }
    t
}
