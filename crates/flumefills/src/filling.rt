// Stage 7 in the flume: the fills, worked out afresh, and whether interface masses are still in their range.
ghost use Rattle.std.specs.Prelude.{◌≡◌, length};
ghost use Rattle.fills.specs.inner.Filled.{Refilled};
ghost use Rattle.nine.specs.inner.Cells.{part_of9};
ghost use Rattle.flumefills.specs.inner.Filled.{Fillable9};

use fills::filling::plain_fills;
use flumegrid::fill::interface_fill9;
use lattice::limits::fair_mass;
use walks::seeking::next_of;
use whole::wide;

// The fill of every cell; whether every interface cell's mass is in its range.
pub fn new_fills9(flags: &[u8], parts: &[i32], masses: &[i32], fills: &mut [u32]) -> bool
    requires { Fillable9 flags.now parts.now masses.now × (length fills.old ≡ length flags.now) }
    ensures { Refilled flags.now (part_of9 parts.now) masses.now fills.new result }
{
    plain_fills(flags, fills);
    let mut fair = true;
    let mut c = 0;
    // From one interface cell to the next: no range says that.
    while c < flags.len() {
        if flags[c] == 1 {
            let m = wide(masses[c]);
            fills[c] = interface_fill9(parts, m, c);
            fair = fair & fair_mass(m);
        }
        c = next_of(flags, c + 1, 1);
    }
    fair
}
