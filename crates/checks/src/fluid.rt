// Test 5: no fluid cell has an empty neighbour. By offsets, as any grid has them, and for the box's sides.
ghost use Rattle.std.specs.Prelude.{◌≡◌, false, length};
ghost use Rattle.grid.specs.Grid.{grid_of};
ghost use Rattle.grid.specs.Good.{bad_fluid};
ghost use Rattle.grid.specs.inner.Passes.{Embedded, open_place, Flagged};
ghost use Rattle.grid.specs.State.{flag_of};

use grid::{Sides, neighbours};

// Whether a fluid cell may have an empty neighbour: if not, none has. No way out of the loop, so that it runs many cells at a time.
fn any_open(flags: &[u8], off: &[usize; 19], low: usize) -> bool
    requires { Embedded flags.now off.now low }
    ensures { result ≡ false → length flags.now ≡ open_place flags.now off.now low }
{
    let end = flags.len() - low;
    let mut found = false;
    for c in low..end {
        found = found | (flags[c] == 2) & neighbours::beside(flags, off, c - low, 0);
    }
    found
}

// The lowest-numbered fluid cell that has an empty neighbour; N if there is none.
fn lowest_open(flags: &[u8], off: &[usize; 19], low: usize) -> usize
    requires { Embedded flags.now off.now low }
    ensures { result ≡ open_place flags.now off.now low }
{
    for c in 0..flags.len() {
        if flags[c] == 2 {
            let k = c - low;
            for i in 1..19 {
                if flags[k + off[i]] == 0 {
                    return c;
                }
            }
        }
    }
    flags.len()
}

// The same, looked for only where there may be one.
pub fn first_open_by(flags: &[u8], off: &[usize; 19], low: usize) -> usize
    requires { Embedded flags.now off.now low }
    ensures { result ≡ open_place flags.now off.now low }
{
    if any_open(flags, off, low) {
        return lowest_open(flags, off, low);
    }
    flags.len()
}

// The same in the box.
pub fn first_open(flags: &[u8], s: Sides) -> usize
    requires { Flagged s flags.now }
    ensures { result ≡ bad_fluid 18 (grid_of s) (flag_of flags.now) }
{
    let off = neighbours::offsets(s);
    let low = neighbours::low_of(s);
    first_open_by(flags, &off, low)
}
