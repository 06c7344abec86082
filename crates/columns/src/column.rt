// Depth of a column: its tests, then the reading of what it holds.
ghost use Rattle.std.specs.Prelude.{◌≡◌, length};
ghost use Rattle.whole.specs.Fold.{first};
ghost use Rattle.tunnel.specs.inner.Asks.{InColumn};
ghost use Rattle.tunnel.specs.Depth.{flag_bad, fill_bad, measured_of, depth_of, DepthIs};

use crate::sum::{reading, summed};
use grid::Sides;
use grid::extent::{cells, good_sides};
use grid::refusals::Refusal;
use tunnel::Depth;
use tunnel::cell::number;

// The height of the lowest flag above 3, nz if there is none.
fn bad_flag(s: Sides, flags: &[u8], x: usize, y: usize) -> usize
    requires { InColumn s (length flags.now) x y }
    ensures { result ≡ first s.nz (flag_bad s flags.now x y) }
{
    let nz = s.nz;
    for z in 0..nz {
        let at = number(s, x, y, z);
        if 3 < flags[at] {
            return z;
        }
    }
    nz
}

// The height of the lowest fill above 65,536, nz if there is none.
fn bad_fill(s: Sides, fills: &[u32], x: usize, y: usize) -> usize
    requires { InColumn s (length fills.now) x y }
    ensures { result ≡ first s.nz (fill_bad s fills.now x y) }
{
    let nz = s.nz;
    for z in 0..nz {
        let at = number(s, x, y, z);
        if 65536 < fills[at] {
            return z;
        }
    }
    nz
}

// The reading of a column of the grid.
fn measured(s: Sides, flags: &[u8], fills: &[u32], x: usize, y: usize) -> Result<Depth, Refusal>
    requires in_column { InColumn s (length flags.now) x y }
    requires in_column_2 { InColumn s (length fills.now) x y }
    ensures { DepthIs result (measured_of s flags.now fills.now x y) }
{
    let nz = s.nz;
    let f = bad_flag(s, flags, x, y);
    if f < nz {
        return Err(Refusal::BadFlag(number(s, x, y, f)));
    }
    let g = bad_fill(s, fills, x, y);
    if g < nz {
        return Err(Refusal::BadState(number(s, x, y, g)));
    }
    let c = summed(s, flags, fills, x, y);
    Ok(reading(c.solid, c.sum))
}

// The depth of column (x, y) of a grid whose flags and fills are lent.
pub fn column_depth(
    s: Sides,
    flags: &[u8],
    fills: &[u32],
    x: usize,
    y: usize,
) -> Result<Depth, Refusal>
    ensures { DepthIs result (depth_of s flags.now fills.now x y) }
{
    if !good_sides(s) {
        return Err(Refusal::BadSides);
    }
    let n = cells(s);
    if flags.len() != n {
        return Err(Refusal::BadLength);
    }
    if fills.len() != n {
        return Err(Refusal::BadLength);
    }
    if s.nx <= x {
        return Err(Refusal::Outside);
    }
    if s.ny <= y {
        return Err(Refusal::Outside);
    }
    measured(s, flags, fills, x, y)
}
