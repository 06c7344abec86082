// The mark of cells into which every part streams straight in, so that stage 1 need not look where it comes from.
ghost use Rattle.std.specs.Prelude.{◌≡◌, true, ◌+◌, ◌≤◌, length};
ghost use Rattle.whole.specs.Fold.{tab};
ghost use Rattle.grid.specs.Grid.{sides_good, cells_of};
ghost use Rattle.grid.specs.inner.Passes.{Reaching, open_mark, opened_by, opened_mark};
ghost use Rattle.passes.specs.inner.Marks.{opened_at};
ghost use Rattle.passes.specs.inner.Stretch.{Stretch, Cleared};

use grid::{Sides, neighbours};
use walks::seeking;

pub fn open_mark(f: u8, walled: bool) -> u8
    ensures { result ≡ open_mark f walled }
{
    if (f == 2) & !walled {
        return 1;
    }
    0
}

// Cells a to b - 1 get no mark.
pub(crate) fn unmark(marks: &mut [u8], a: usize, b: usize)
    requires { (a ≤ b) × (b ≤ length marks.old) }
    ensures { Cleared 0 a b marks.old marks.new }
{
    marks[a..b].fill(0);
}

// Cells a to b - 1 get pass 0's mark. All in one way, so that many are looked at together.
fn mark_span(flags: &[u8], marks: &mut [u8], off: &[usize; 19], low: usize, a: usize, b: usize)
    requires { Reaching (length flags.now) off.now low × (length marks.old ≡ length flags.now) × (low ≤ a) × (a ≤ b) × (b + low ≤ length flags.now) }
    ensures { Stretch 0 (opened_at flags.now off.now low) a b marks.old marks.new }
{
    for c in a..b {
        marks[c] = open_mark(flags[c], neighbours::beside(flags, off, c - low, 3));
    }
}

// Pass 0, by offsets: marks 1 at fluid cells with no wall beside them. From fluid to fluid: what lies between has none, and 32 cells are looked at together.
pub fn mark_open_by(flags: &[u8], marks: &mut [u8], off: &[usize; 19], low: usize)
    requires { Reaching (length flags.now) off.now low × (length marks.old ≡ length flags.now) }
    ensures { marks.new ≡ tab (length flags.now) (opened_by flags.now marks.old off.now low) }
{
    let end = flags.len() - low;
    let mut c = low;
    // From one fluid cell to the next, 32 at a time: no range says that.
    while c < end {
        let a = seeking::next_of(flags, c, 2).min(end);
        let b = (a + 32).min(end);
        unmark(marks, c, a);
        mark_span(flags, marks, off, low, a, b);
        c = b;
    }
}

// The same in the box.
pub fn mark_open(flags: &[u8], marks: &mut [u8], s: Sides)
    requires { (sides_good s ≡ true) × (length flags.now ≡ cells_of s) × (length marks.old ≡ cells_of s) }
    ensures { marks.new ≡ tab (cells_of s) (opened_mark s flags.now marks.old) }
{
    let off = neighbours::offsets(s);
    let low = neighbours::low_of(s);
    mark_open_by(flags, marks, &off, low);
}
