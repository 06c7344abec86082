// The normal of a cell: per axis, how far the fill falls. k is c - low, and off[0] leads to the cell itself.
ghost use Rattle.std.specs.Prelude.{◌≡◌, ℕ, ◌≤◌, ◌<◌, pos, ◌-ℤ◌, length, get_or};
ghost use Rattle.lattice.specs.inner.Held.{vec};
ghost use Rattle.grid.specs.inner.Passes.{seen_at, normal_at, Sloping};

use lattice::Flow;

// The cell whose fill counts for c at b: for a wall c itself. A choice between two places costs no branch where one between two fills does.
fn seen(flags: &[u8], c: usize, b: usize) -> usize
    requires { b < length flags.now }
    ensures { result ≡ seen_at flags.now c b }
{
    if flags[b] > 2 {
        return c;
    }
    b
}

// How far the fill falls from one cell to another, as they count for c.
fn fall(flags: &[u8], fills: &[u32], c: usize, from: usize, to: usize) -> i32
    requires { (c < length flags.now) × (from < length flags.now) × (to < length flags.now) × (length fills.now ≡ length flags.now) × ((j : ℕ) → j < length flags.now → get_or fills.now j 0 ≤ 65536) }
    ensures { result ≡ pos (get_or fills.now (seen_at flags.now c from) 0) -ℤ pos (get_or fills.now (seen_at flags.now c to) 0) }
{
    fills[seen(flags, c, from)] as i32 - fills[seen(flags, c, to)] as i32
}

// Per axis the old fill at minus one less that at plus one.
pub fn normal(flags: &[u8], fills: &[u32], off: &[usize; 19], k: usize) -> Flow
    requires { Sloping flags.now fills.now off.now k }
    ensures { vec result ≡ normal_at flags.now fills.now off.now k }
{
    let c = k + off[0];
    let x = fall(flags, fills, c, k + off[2], k + off[1]);
    let y = fall(flags, fills, c, k + off[4], k + off[3]);
    let z = fall(flags, fills, c, k + off[6], k + off[5]);
    Flow {
        rho: 0,
        x: x,
        y: y,
        z: z,
    }
}
