// Stage 5: which cells are emptied after all: none beside a filled one.
ghost use Rattle.std.specs.Prelude.{◌≡◌, cond, length};
ghost use Rattle.whole.specs.Fold.{tab};
ghost use Rattle.grid.specs.Grid.{cells_of};
ghost use Rattle.grid.specs.inner.Passes.{kept_by, kept_mark, EmptyingBy, Emptying};

use grid::{Sides, neighbours};
use walks::seeking;

fn kept(filled: bool) -> u8
    ensures { result ≡ cond filled 0 2 }
{
    if filled {
        return 0;
    }
    2
}

// Pass 2, by offsets: a cell to be emptied beside a filled one is let off.
pub fn settle_marks_by(marks: &mut [u8], off: &[usize; 19], low: usize)
    requires { EmptyingBy marks.old off.now low }
    ensures { marks.new ≡ tab (length marks.old) (kept_by marks.old off.now low) }
{
    let mut c = 0;
    // From one marked cell to the next: no range says that.
    while c < marks.len() {
        if marks[c] == 2 {
            marks[c] = kept(neighbours::beside(marks, off, c - low, 1));
        }
        c = seeking::next_marked(marks, c + 1);
    }
}

// The same in the box.
pub fn settle_marks(marks: &mut [u8], s: Sides)
    requires { Emptying s marks.old }
    ensures { marks.new ≡ tab (cells_of s) (kept_mark s marks.old) }
{
    let off = neighbours::offsets(s);
    let low = neighbours::low_of(s);
    settle_marks_by(marks, &off, low);
}
