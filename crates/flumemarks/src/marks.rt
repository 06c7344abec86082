// Passes 0 and 3 by eight directions. What they leave is what the box's passes by offsets leave: an idle offset leads to the cell itself, whose own byte
// decides before its neighbours' do.
ghost use Rattle.std.specs.Prelude.{◌≡◌, length};
ghost use Rattle.whole.specs.Fold.{tab};
ghost use Rattle.grid.specs.inner.Passes.{Reaching, opened_by, turned_by, MarkedBy};
ghost use Rattle.flumemarks.specs.inner.Eight.{Idling};

use crate::eight::beside9;
use conversion::convert::kind_after;
use passes::marks::open_mark;

// Pass 0: marks 1 at fluid cells with no wall beside them.
pub fn mark_open9(flags: &[u8], marks: &mut [u8], off: &[usize; 19], low: usize)
    requires { Reaching (length flags.now) off.now low × Idling off.now low × (length marks.old ≡ length flags.now) }
    ensures { marks.new ≡ tab (length flags.now) (opened_by flags.now marks.old off.now low) }
{
    let end = flags.len() - low;
    for c in low..end {
        marks[c] = open_mark(flags[c], beside9(flags, off, c - low, 3));
    }
}

// Pass 3: the new flags. The second set's are a copy of the old ones; the first and the last cells, all wall, are left as they are.
pub fn new_flags9(flags: &[u8], marks: &[u8], next: &mut [u8], off: &[usize; 19], low: usize)
    requires { MarkedBy flags.now marks.now off.now low × Idling off.now low × (next.old ≡ flags.now) }
    ensures { next.new ≡ tab (length flags.now) (turned_by flags.now marks.now off.now low) }
{
    let end = flags.len() - low;
    for c in low..end {
        next[c] = kind_after(
            flags[c],
            marks[c],
            beside9(marks, off, c - low, 1),
            beside9(marks, off, c - low, 2),
        );
    }
}
