// Stage 6 in the flume: the excess of converted cells with no target joins the carry.
ghost use Rattle.std.specs.Prelude.{◌≡◌, ◌<◌, ◌+ℤ◌, length};
ghost use Rattle.whole.specs.Fold.{sum};
ghost use Rattle.whole.specs.laws.Machine.{Within};
ghost use Rattle.grid.specs.inner.Sight.{Around};
ghost use Rattle.excess.specs.inner.Gifts.{Weighed, lost_at, stray_at};
ghost use Rattle.nine.specs.inner.Cells.{part_of9};
ghost use Rattle.flumeexcess.specs.inner.Gathered.{RoomOf9, Straying};

use crate::giving::excess9;
use excess::leaning::evens;
use surface::excess::total;
use walks::seeking::next_marked;

// What cell c with mark m has left for no one.
fn lost9(
    flags: &[u8],
    parts: &[i32],
    masses: &[i32],
    off: &[usize; 19],
    low: usize,
    c: usize,
    m: u8,
) -> i64
    requires { Around (length flags.now) off.now low c × Weighed (RoomOf9 parts.now) (part_of9 parts.now) masses.now c }
    ensures { result ≡ lost_at flags.now (part_of9 parts.now) masses.now off.now low c m }
{
    if total(evens(flags, off, c - low)) == 0 {
        return excess9(parts, masses, m, c);
    }
    0
}

// Pass 5: the carry, before any mass changes.
pub fn new_carry9(
    flags: &[u8],
    parts: &[i32],
    masses: &[i32],
    marks: &[u8],
    carry: i64,
    off: &[usize; 19],
    low: usize,
) -> i64
    requires { Straying flags.now parts.now masses.now marks.now off.now low × Within carry 1000000000000 }
    ensures { result ≡ carry +ℤ sum (length flags.now) (stray_at flags.now (part_of9 parts.now) masses.now marks.now off.now low) }
{
    let mut t = carry;
    let mut c = 0;
    // On to the next mark, which only the search tells: no range says that.
    while c < marks.len() {
        let m = marks[c];
        if m != 0 {
            t += lost9(flags, parts, masses, off, low, c, m);
        }
        c = next_marked(marks, c + 1);
    }
    t
}
