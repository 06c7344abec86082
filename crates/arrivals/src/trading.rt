// Stage 2: what an interface cell gains from one neighbour.
ghost use Rattle.std.specs.Prelude.{◌≡◌, ◌+◌, ◌<◌, pos, ◌-ℤ◌, length};
ghost use Rattle.grid.specs.State.{part_of};
ghost use Rattle.grid.specs.inner.Sight.{Bodied};
ghost use Rattle.arrivals.specs.inner.Trade.{Fills, passed};

use grid::kinds::is_liquid;
use whole::wide;

pub fn difference(a: i32, b: i32) -> i64
    ensures { result ≡ a -ℤ b }
{
    wide(a) - wide(b)
}

// Two fills together.
pub fn both(a: u32, b: u32) -> i64
    ensures { result ≡ pos (a + b) }
{
    a as i64 + b as i64
}

// What cell c gains from cell b in direction i, whose opposite is k. Of a dry neighbour the flag alone is looked at: its parts lie far off.
pub fn traded(
    flags: &[u8],
    parts: &[i32],
    fills: &[u32],
    c: usize,
    b: usize,
    i: usize,
    k: usize,
) -> i64
    requires { Bodied flags.now parts.now × Fills flags.now fills.now × (c < length flags.now) × (b < length flags.now) × (i < 19) × (k < 19) }
    ensures { result ≡ passed flags.now (part_of parts.now) fills.now c b i k }
{
    let f = flags[b];
    if !is_liquid(f) {
        return 0;
    }
    let d = difference(parts[19 * b + k], parts[19 * c + i]);
    if f == 2 {
        return d;
    }
    surface::exchange::exchange(both(fills[c], fills[b]), d)
}
