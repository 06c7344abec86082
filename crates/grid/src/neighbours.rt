// Where a cell's neighbours lie: neighbour i of cell c is (c - low) + off[i].
ghost use Rattle.std.specs.Prelude.{◌≡◌, true, ◌≤◌};
ghost use Rattle.whole.specs.Fold.{tab};
ghost use Rattle.grid.specs.Grid.{sides_good, cell_at};
ghost use Rattle.grid.specs.inner.Passes.{low_of, offset_of, beside_at, Reach};

use crate::Sides;

// A cell near the lowest corner.
fn cell_at(s: Sides, x: usize, y: usize, z: usize) -> usize
    requires { (sides_good s ≡ true) × (x ≤ 2) × (y ≤ 2) × (z ≤ 2) }
    ensures { result ≡ cell_at s.nx s.ny x y z }
{
    x + s.nx * (y + s.ny * z)
}

// The lowest cell that is not in the outer layer.
pub fn low_of(s: Sides) -> usize
    requires { sides_good s ≡ true }
    ensures { result ≡ low_of s }
{
    cell_at(s, 1, 1, 1)
}

// The neighbours of the lowest cell, in the order of the directions.
pub fn offsets(s: Sides) -> [usize; 19]
    requires { sides_good s ≡ true }
    ensures { result ≡ tab 19 (offset_of s) }
{
    [
        cell_at(s, 1, 1, 1),
        cell_at(s, 2, 1, 1),
        cell_at(s, 0, 1, 1),
        cell_at(s, 1, 2, 1),
        cell_at(s, 1, 0, 1),
        cell_at(s, 1, 1, 2),
        cell_at(s, 1, 1, 0),
        cell_at(s, 2, 2, 1),
        cell_at(s, 0, 0, 1),
        cell_at(s, 2, 0, 1),
        cell_at(s, 0, 2, 1),
        cell_at(s, 1, 2, 2),
        cell_at(s, 1, 0, 0),
        cell_at(s, 1, 2, 0),
        cell_at(s, 1, 0, 2),
        cell_at(s, 2, 1, 2),
        cell_at(s, 0, 1, 0),
        cell_at(s, 2, 1, 0),
        cell_at(s, 0, 1, 2),
    ]
}

// Whether a neighbour's byte is m; k is c - low. With no way out, so that the passes above run many cells at a time.
pub fn beside(bytes: &[u8], off: &[usize; 19], k: usize, m: u8) -> bool
    requires { Reach bytes.now off.now k }
    ensures { result ≡ beside_at bytes.now off.now k m }
{
    let mut found = false;
    for i in 1..19 {
        found = found | (bytes[k + off[i]] == m);
    }
    found
}
