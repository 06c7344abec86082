// Where a flume cell's neighbours lie, among the nineteen places: neighbour i of cell c is (c - low) + off[i], and an idle one is c itself.
ghost use Rattle.std.specs.Prelude.{◌≡◌, true, ◌+◌, ◌*◌, ◌≤◌};
ghost use Rattle.whole.specs.Fold.{tab};
ghost use Rattle.flume.specs.Flume.{flume_sides_good};
ghost use Rattle.flume.specs.inner.Offsets.{flume_low, flume_offset};

use flume::FlumeSides;

// A cell near the lowest corner.
fn cell_at(s: FlumeSides, x: usize, z: usize) -> usize
    requires { (flume_sides_good s ≡ true) × (x ≤ 2) × (z ≤ 2) }
    ensures { result ≡ x + s.nx * z }
{
    x + s.nx * z
}

// The lowest cell that is not in the outer layer.
pub fn low_of(s: FlumeSides) -> usize
    requires { flume_sides_good s ≡ true }
    ensures { result ≡ flume_low s }
{
    cell_at(s, 1, 1)
}

// The neighbours of the lowest cell, each at its direction's place, and the cell itself at the idle places.
pub fn offsets(s: FlumeSides) -> [usize; 19]
    requires { flume_sides_good s ≡ true }
    ensures { result ≡ tab 19 (flume_offset s) }
{
    let low = cell_at(s, 1, 1);
    [
        low,
        cell_at(s, 2, 1),
        cell_at(s, 0, 1),
        low,
        low,
        cell_at(s, 1, 2),
        cell_at(s, 1, 0),
        low,
        low,
        low,
        low,
        low,
        low,
        low,
        low,
        cell_at(s, 2, 2),
        cell_at(s, 0, 0),
        cell_at(s, 2, 0),
        cell_at(s, 0, 2),
    ]
}
