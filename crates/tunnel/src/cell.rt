// Cells: their numbers, and the cell point, centre and fill of one.
ghost use Rattle.std.specs.Prelude.{◌≡◌, true, ◌≤◌, ◌<◌};
ghost use Rattle.grid.specs.Grid.{sides_good, cells_of, cell_at};
ghost use Rattle.tunnel.specs.inner.Asks.{Inside};
ghost use Rattle.tunnel.specs.Point.{centre_of, point_of, CentreIs, PointIs};

use crate::CellPoint;
use crate::exact::{centre, share};
use grid::Sides;
use grid::extent::{cells, good_sides};
use grid::refusals::Refusal;

// The number of cell (x, y, z).
pub fn number(s: Sides, x: usize, y: usize, z: usize) -> usize
    requires { Inside s x y z }
    ensures { result ≡ cell_at s.nx s.ny x y z }
{
    x + s.nx * (y + s.ny * z)
}

// The centre of cell c and its fill m.
fn accepted(s: Sides, c: usize, m: u32) -> CellPoint
    requires s_value { sides_good s ≡ true }
    requires c_bound { c < cells_of s }
    requires m_bound { m ≤ 65536 }
    ensures { CentreIs result (centre_of s c m) }
{
    let nx = s.nx;
    let ny = s.ny;
    CellPoint {
        x: centre(c % nx),
        y: centre(c / nx % ny),
        z: centre(c / (nx * ny)),
        fill: share(m),
    }
}

// The point of cell c of a grid whose fills are lent.
pub fn cell_point(s: Sides, fills: &[u32], c: usize) -> Result<CellPoint, Refusal>
    ensures { PointIs result (point_of s fills.now c) }
{
    if !good_sides(s) {
        return Err(Refusal::BadSides);
    }
    let n = cells(s);
    if fills.len() != n {
        return Err(Refusal::BadLength);
    }
    if n <= c {
        return Err(Refusal::Outside);
    }
    let m = fills[c];
    if 65536 < m {
        return Err(Refusal::BadState(c));
    }
    Ok(accepted(s, c, m))
}
