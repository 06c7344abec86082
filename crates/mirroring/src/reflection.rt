// Where a reflection takes cells and directions.
ghost use Rattle.std.specs.Prelude.{◌≡◌, ℕ, ◌+◌, ◌≤◌, ◌<◌, pos, length, get_or};
ghost use Rattle.whole.specs.Fold.{tab};
ghost use Rattle.lattice.specs.Lattice.{d3q19};
ghost use Rattle.grid.specs.Grid.{cells_of};
ghost use Rattle.mirror.specs.Mirror.{flip};
ghost use Rattle.mirroring.specs.inner.Between.{cell_in, dir_in, Directed, Fetched};

use grid::Sides;

// x of n places, or n - 1 - x.
fn flipped(turn: bool, n: usize, x: usize) -> usize
    requires { x < n }
    ensures { result ≡ flip turn n x }
{
    if turn {
        return n - 1 - x;
    }
    x
}

// The cell that takes cell c's place in an axis, 0 x, 1 y, 2 z, in a box of any sides; a flume is one of one layer in y.
pub(crate) fn cell_in(c: usize, axis: usize, s: Sides) -> usize
    requires { (cells_of s ≤ 262144) × (c < cells_of s) }
    ensures { (result ≡ cell_in s axis c) × (result < cells_of s) }
{
    let row = c / s.nx;
    let x = flipped(axis == 0, s.nx, c % s.nx);
    let y = flipped(axis == 1, s.ny, row % s.ny);
    let z = flipped(axis == 2, s.nz, row / s.ny);
    x + s.nx * (y + s.ny * z)
}

// The reflected directions of the box, 0 to 18.
pub(crate) fn directions(axis: usize) -> [usize; 19]
    requires { axis ≤ 2 }
    ensures { result ≡ tab 19 (dir_in d3q19 axis) }
{
    if axis == 0 {
        return [
            0, 2, 1, 3, 4, 5, 6, 10, 9, 8, 7, 11, 12, 13, 14, 18, 17, 16, 15,
        ];
    }
    if axis == 1 {
        return [
            0, 1, 2, 4, 3, 5, 6, 9, 10, 7, 8, 14, 13, 12, 11, 15, 16, 17, 18,
        ];
    }
    [
        0, 1, 2, 3, 4, 6, 5, 7, 8, 9, 10, 13, 14, 11, 12, 17, 18, 15, 16,
    ]
}

// So many parts from place `from` on, each in the place that its direction has when reflected, written from place `to` on.
pub(crate) fn fetch(
    parts: &[i32],
    from: usize,
    out: &mut [i32],
    to: usize,
    width: usize,
    dirs: &[usize; 19],
)
    requires { (from + width ≤ length parts.now) × (to + width ≤ length out.old) × (width ≤ 19) × Directed width dirs.now }
    ensures { Fetched width to (λ (k : ℕ). get_or parts.now (from + get_or dirs.now k 0) (pos 0)) out.old out.new }
{
    for k in 0..width {
        out[to + k] = parts[from + dirs[k]];
    }
}
