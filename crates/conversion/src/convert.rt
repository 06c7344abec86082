// Stage 5's new flags.
ghost use Rattle.std.specs.Prelude.{◌≡◌, ◌-◌, ◌≤◌, ◌<◌, eqb, length};
ghost use Rattle.whole.specs.Fold.{tab};
ghost use Rattle.grid.specs.Grid.{cells_of};
ghost use Rattle.grid.specs.Step.{flag_after};
ghost use Rattle.grid.specs.inner.Passes.{Reach, turned_by, turned_flag, MarkedBy, Marked};
ghost use Rattle.conversion.specs.inner.Flags.{Enclosed, turned_around};

use grid::{Sides, neighbours};
use walks::seeking;

// The new flag of a cell with flag f and mark m, by whether a neighbour is filled or emptied.
pub fn kind_after(f: u8, m: u8, filled: bool, emptied: bool) -> u8
    requires { (f < 4) × ((f ≡ 1 → ⊥) → m ≡ 0) }
    ensures { result ≡ flag_after f filled (eqb m 1) (eqb m 2) emptied }
{
    if m == 1 {
        return 2;
    }
    if m == 2 {
        return 0;
    }
    if (f == 0) & filled {
        return 1;
    }
    if (f == 2) & emptied {
        return 1;
    }
    f
}

// What the mark of cell c changes: the cell turns, and its neighbours of a kind, empty beside a filled cell and fluid beside an emptied one, become interface.
fn turn_around(flags: &[u8], next: &mut [u8], off: &[usize; 19], low: usize, c: usize, kind: u8)
    requires { Reach flags.now off.now (c - low) × (length next.old ≡ length flags.now) × (low ≤ c) × (c < length flags.now) × (kind ≤ 2) }
    ensures { next.new ≡ tab (length flags.now) (turned_around flags.now next.old off.now low c kind) }
{
    next[c] = 2 - kind;
    for i in 1..19 {
        let b = c - low + off[i];
        if flags[b] == kind {
            next[b] = 1;
        }
    }
}

// Pass 3, by offsets: the new flags. The second set's are a copy of the old ones, and a mark changes its own cell's and its neighbours'.
pub fn new_flags_by(flags: &[u8], marks: &[u8], next: &mut [u8], off: &[usize; 19], low: usize)
    requires { MarkedBy flags.now marks.now off.now low × (next.old ≡ flags.now) × Enclosed flags.now off.now low }
    ensures { next.new ≡ tab (length flags.now) (turned_by flags.now marks.now off.now low) }
{
    let mut c = 0;
    // From one marked cell to the next: no range says that.
    while c < marks.len() {
        let m = marks[c];
        if m == 1 {
            turn_around(flags, next, off, low, c, 0);
        }
        if m == 2 {
            turn_around(flags, next, off, low, c, 2);
        }
        c = seeking::next_marked(marks, c + 1);
    }
}

// The same in the box.
pub(crate) fn new_flags(flags: &[u8], marks: &[u8], next: &mut [u8], s: Sides)
    requires { Marked s flags.now marks.now × (next.old ≡ flags.now) }
    ensures { next.new ≡ tab (cells_of s) (turned_flag s flags.now marks.now) }
{
    let off = neighbours::offsets(s);
    let low = neighbours::low_of(s);
    new_flags_by(flags, marks, next, &off, low);
}
