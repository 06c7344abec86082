// The fill of a flume's interface cell, worked out from its mass and its own nine parts: stage 7, and after an act between steps.
ghost use Rattle.std.specs.Prelude.{◌≡◌, ◌+◌, ◌*◌, ◌≤◌, length};
ghost use Rattle.lattice.specs.Lattice.{d3q19, density};
ghost use Rattle.lattice.specs.Cell.{fill_of};
ghost use Rattle.grid.specs.inner.Fill.{Weighty};
ghost use Rattle.nine.specs.inner.Cells.{part_of9};

use lattice::fill::part_fill;
use lattice::moments::density;
use nine::cells::own9;
use whole::wide;

// The fill of interface cell c, whose mass is m.
pub fn interface_fill9(parts: &[i32], m: i64, c: usize) -> u32
    requires { (9 * c + 9 ≤ length parts.now) × Weighty (part_of9 parts.now c) }
    ensures { result ≡ fill_of m (density d3q19 (part_of9 parts.now c)) }
{
    part_fill(m, wide(density(own9(parts, c))))
}
