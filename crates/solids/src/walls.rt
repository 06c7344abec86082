// The second pass: heights to walls. The lowest layer of the flags, wall in any case, first holds each column's number of walls.
ghost use Rattle.std.specs.Prelude.{◌≡◌, true, ◌+◌, ◌-◌, ◌*◌, ◌≤◌, pos, ◌*ℤ◌, length, take, drop};
ghost use Rattle.std.specs.Int.Signed.{quot_z};
ghost use Rattle.std.proofs.lemmas.List.Edits.{sets};
ghost use Rattle.numerals.specs.Number.{number_of};
ghost use Rattle.solids.specs.Invert.{or_zero, solid_at, invert_flags};
ghost use Rattle.solids.specs.inner.Walls.{height_of, row_heights, layer_of, wall_of, wall_by};
ghost use Rattle.whole.specs.Fold.{tab};
ghost use Rattle.grid.specs.Grid.{at_end, sides_good, cells_of};

use grid::Sides;
use heights::header::{is_no_data, units};
use numerals::number::number_of;
use numerals::text::{next_line, next_word};

fn value_or_zero(v: Option<i64>) -> i64
    ensures { result ≡ or_zero v }
{
    v.unwrap_or(0)
}

// Twice the height of a cell's centre, and of a value, above the origin.
fn centre(edge: usize, z: usize) -> i64
    requires edge_bound { edge ≤ 1000 }
    requires z_bound { z ≤ 128 }
    ensures { result ≡ pos ((2 * z + 1) * edge) }
{
    ((2 * z + 1) * edge) as i64
}

fn twice(v: i64) -> i64
    ensures { result ≡ pos 2 *ℤ quot_z v (pos 1000) }
{
    2 * units(v)
}

// A cell's centre lies below the height, or no height is given.
fn solid(v: i64, edge: usize, z: usize) -> bool
    requires edge_bound { edge ≤ 1000 }
    requires z_bound { z ≤ 128 }
    ensures { result ≡ solid_at v edge z }
{
    if is_no_data(v) {
        return true;
    }
    centre(edge, z) < twice(v)
}

// How many cells of a column are wall, from the lowest up.
fn walls_of(v: i64, edge: usize, nz: usize) -> usize
    requires edge_bound { edge ≤ 1000 }
    requires nz_bound { nz ≤ 128 }
    ensures { result ≡ height_of edge nz v }
{
    for z in 0..nz {
        if !solid(v, edge, z) {
            return z;
        }
    }
    nz
}

// The value that stands at a place, and what it makes of its column.
fn walls_at(s: &[u8], from: usize, to: usize, edge: usize, nz: usize) -> usize
    requires from_le_to { from ≤ to }
    requires to_in_bounds { to ≤ length s.now }
    requires edge_bound { edge ≤ 1000 }
    requires nz_bound { nz ≤ 128 }
    ensures value { result ≡ height_of edge nz (or_zero (number_of (take (to - from) (drop from s.now)))) }
    ensures upper_bound { result ≤ 128 }
{
    walls_of(value_or_zero(number_of(&s[from..to])), edge, nz)
}

// A row's n columns into the layer, from `base` on.
fn row_walls(s: &[u8], at: usize, flags: &mut [u8], base: usize, n: usize, edge: usize, nz: usize)
    requires at_in_bounds { at ≤ length s.now }
    requires n_in_bounds { base + n ≤ length flags.old }
    requires edge_bound { edge ≤ 1000 }
    requires nz_bound { nz ≤ 128 }
    ensures { flags.new ≡ sets flags.old base (row_heights edge nz n (drop at s.now)) }
{
    let mut p = at;
    for i in 0..n {
        let w = next_word(s, p);
        let from = w.from;
        let to = w.to;
        let k = walls_at(s, from, to, edge, nz);
        flags[base + i] = k as u8;
        p = to;
    }
}

// The layer of m rows, the last of which is y = 0.
pub fn layer(s: &[u8], at: usize, flags: &mut [u8], n: usize, m: usize, edge: usize, nz: usize)
    requires at_in_bounds { at ≤ length s.now }
    requires n_bound { n ≤ 128 }
    requires m_bound { m ≤ 128 }
    requires n_in_bounds { m * n ≤ length flags.old }
    requires edge_bound { edge ≤ 1000 }
    requires nz_bound { nz ≤ 128 }
    ensures { flags.new ≡ sets flags.old 0 (layer_of edge nz n m (drop at s.now)) }
{
    let mut p = at;
    for i in (0..m).rev() {
        row_walls(s, p, flags, i * n, n, edge, nz);
        p = next_line(s, p);
    }
}

fn at_end(n: usize, x: usize) -> bool
    requires { x ≤ 262144 }
    ensures { result ≡ at_end n x }
{
    if x == 0 {
        return true;
    }
    x + 1 == n
}

// A cell's flag, from the number of walls in its column.
fn cell_wall(s: Sides, c: usize, k: u8) -> u8
    requires s_value { sides_good s ≡ true }
    requires c_bound { c ≤ 262144 }
    ensures { result ≡ wall_of s c k }
{
    let nx = s.nx;
    let ny = s.ny;
    let z = c / (nx * ny);
    if at_end(nx, c % nx) {
        return 3;
    }
    if at_end(ny, c / nx % ny) {
        return 3;
    }
    if at_end(s.nz, z) {
        return 3;
    }
    if z < k as usize {
        return 3;
    }
    0
}

// From the layer to the flags of all cells, from the last cell down: the layer is outer, and read before it is written.
pub fn spread(flags: &mut [u8], s: Sides)
    requires s_value { sides_good s ≡ true }
    requires flags_len { length flags.old ≡ cells_of s }
    ensures { flags.new ≡ tab (cells_of s) (wall_by s flags.old) }
{
    let plane = s.nx * s.ny;
    for i in (0..flags.len()).rev() {
        let k = flags[i % plane];
        flags[i] = cell_wall(s, i, k);
    }
}

// The flags of the invert whose rows begin at `at`.
pub fn invert_flags(s: &[u8], at: usize, flags: &mut [u8], sides: Sides, edge: usize)
    requires at_in_bounds { at ≤ length s.now }
    requires sides_value { sides_good sides ≡ true }
    requires flags_len { length flags.old ≡ cells_of sides }
    requires edge_bound { edge ≤ 1000 }
    ensures { flags.new ≡ invert_flags sides edge (drop at s.now) }
{
    let nx = sides.nx;
    let ny = sides.ny;
    let nz = sides.nz;
    layer(s, at, flags, nx, ny, edge, nz);
    spread(flags, sides);
}
