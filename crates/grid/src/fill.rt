// The fill of an interface cell, worked out from its mass and its own parts: stage 7, and after an act between steps.
ghost use Rattle.std.specs.Prelude.{◌≡◌, ◌+◌, ◌*◌, ◌≤◌, length};
ghost use Rattle.lattice.specs.Lattice.{d3q19, density};
ghost use Rattle.lattice.specs.Cell.{fill_of};
ghost use Rattle.grid.specs.State.{part_of};
ghost use Rattle.grid.specs.inner.Fill.{Weighty};

use crate::cells::own;
use lattice::fill::part_fill;
use lattice::moments::density;
use whole::wide;

// The fill of interface cell c, whose mass is m.
pub fn interface_fill(parts: &[i32], m: i64, c: usize) -> u32
    requires { (19 * c + 19 ≤ length parts.now) × Weighty (part_of parts.now c) }
    ensures { result ≡ fill_of m (density d3q19 (part_of parts.now c)) }
{
    part_fill(m, wide(density(own(parts, c))))
}
