// The depth of a column in whole millimetres.
ghost use Rattle.std.specs.Prelude.{◌≡◌, cond, ◌*◌, ◌/◌, ◌≤◌, ◌<◌, pos, negsuc};
ghost use Rattle.depths.specs.Map.{depth_at};
ghost use Rattle.depths.specs.inner.Asks.{Measured};

use columns::sum::summed;
use grid::Sides;

// The floor of sum times edge over 65,536; a solid column has -9999.
fn millimetres(solid: bool, sum: u32, edge: u64) -> i64
    requires sum_bound { sum < 16777216 }
    requires edge_bound { edge ≤ 1000 }
    ensures { result ≡ cond solid (negsuc 9998) (pos (sum * edge / 65536)) }
{
    if solid {
        return -9999;
    }
    (sum as u64 * edge / 65536) as i64
}

pub fn depth(s: Sides, edge: u64, flags: &[u8], fills: &[u32], x: usize, y: usize) -> i64
    requires measured { Measured s edge flags.now fills.now }
    requires x_lt_nx { x < s.nx }
    requires y_lt_ny { y < s.ny }
    ensures { result ≡ depth_at s edge flags.now fills.now x y }
{
    let c = summed(s, flags, fills, x, y);
    millimetres(c.solid, c.sum, edge)
}
