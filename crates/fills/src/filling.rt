// Stage 7: the fills, worked out afresh, and whether interface masses are still in their range.
ghost use Rattle.std.specs.Prelude.{◌≡◌, length};
ghost use Rattle.whole.specs.Fold.{tab};
ghost use Rattle.grid.specs.State.{part_of};
ghost use Rattle.fills.specs.inner.Filled.{Fillable, plain_fill, plain_at, Refilled};

use grid::fill::interface_fill;
use lattice::limits::fair_mass;
use walks::seeking::next_of;
use whole::wide;

// What a cell's fill is by its flag alone: a fluid cell is full, any other is taken as dry.
fn plain_fill(f: u8) -> u32
    ensures { result ≡ plain_fill f }
{
    if f == 2 {
        return 65536;
    }
    0
}

// Every fill but those of interface cells; with nothing else in it this loop runs many cells at a time.
pub fn plain_fills(flags: &[u8], fills: &mut [u32])
    requires { length fills.old ≡ length flags.now }
    ensures { fills.new ≡ tab (length flags.now) (plain_at flags.now) }
{
    for c in 0..flags.len() {
        fills[c] = plain_fill(flags[c]);
    }
}

// The fill of every cell; whether every interface cell's mass is in its range.
pub fn new_fills(flags: &[u8], parts: &[i32], masses: &[i32], fills: &mut [u32]) -> bool
    requires { Fillable flags.now parts.now masses.now × (length fills.old ≡ length flags.now) }
    ensures { Refilled flags.now (part_of parts.now) masses.now fills.new result }
{
    plain_fills(flags, fills);
    let mut fair = true;
    let mut c = 0;
    // From one interface cell to the next: no range says that.
    while c < flags.len() {
        if flags[c] == 1 {
            let m = wide(masses[c]);
            fills[c] = interface_fill(parts, m, c);
            fair = fair & fair_mass(m);
        }
        c = next_of(flags, c + 1, 1);
    }
    fair
}
