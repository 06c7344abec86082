// Stage 2: what an interface cell gains from one neighbour.
ghost use Rattle.std.specs.Prelude.{◌≡◌, ◌<◌, length};
ghost use Rattle.arrivals.specs.inner.Trade.{Fills, passed};
ghost use Rattle.flume.specs.inner.Spread.{wide};
ghost use Rattle.nine.specs.inner.Cells.{part_of9};
ghost use Rattle.flumearrivals.specs.inner.Seen.{Bodied9};

use arrivals::trading::{both, difference};
use grid::kinds::is_liquid;
use surface::exchange::exchange;

// What cell c gains from cell b in direction k, whose opposite is m. Of a dry neighbour the flag alone is looked at.
pub fn traded9(
    flags: &[u8],
    parts: &[i32],
    fills: &[u32],
    c: usize,
    b: usize,
    k: usize,
    m: usize,
) -> i64
    requires { Bodied9 flags.now parts.now × Fills flags.now fills.now × (c < length flags.now) × (b < length flags.now) × (k < 9) × (m < 9) }
    ensures { result ≡ passed flags.now (part_of9 parts.now) fills.now c b (wide k) (wide m) }
{
    let f = flags[b];
    if !is_liquid(f) {
        return 0;
    }
    let d = difference(parts[9 * b + m], parts[9 * c + k]);
    if f == 2 {
        return d;
    }
    exchange(both(fills[c], fills[b]), d)
}
