// Test 1: the sides of a flume.
ghost use Rattle.std.specs.Prelude.{◌≡◌, true};
ghost use Rattle.flume.specs.Flume.{flume_side_good, flume_sides_good, flume_cells};

use crate::FlumeSides;

fn good_side(n: usize) -> bool
    ensures { result ≡ flume_side_good n }
{
    (3 <= n) & (n <= 512)
}

// Whether each side is 3 to 512.
pub fn good_sides(s: FlumeSides) -> bool
    ensures { result ≡ flume_sides_good s }
{
    good_side(s.nx) & good_side(s.nz)
}

// N, the number of cells of good sides.
pub fn cells(s: FlumeSides) -> usize
    requires { flume_sides_good s ≡ true }
    ensures { result ≡ flume_cells s }
{
    s.nx * s.nz
}
