// Stage 6: how the surface of a converted cell leans, and what its neighbours weigh by that. k is c - low.
ghost use Rattle.std.specs.Prelude.{◌≡◌, length};
ghost use Rattle.whole.specs.Fold.{tab};
ghost use Rattle.whole.specs.laws.Machine.{Within};
ghost use Rattle.lattice.specs.inner.Held.{vec};
ghost use Rattle.excess.specs.inner.Gifts.{Near, Filled, leaning_at, lean_weight_at, even_at, weight_at, of_dir};

use grid::normal::normal;
use lattice::Flow;
use lattice::directions::dots;
use surface::excess::{even, total, weight};

// The normal, turned for an emptied cell.
fn leaning(flags: &[u8], fills: &[u32], off: &[usize; 19], k: usize, m: u8) -> Flow
    requires { Near (length flags.now) off.now k × (length fills.now ≡ length flags.now) × Filled fills.now }
    ensures { vec result ≡ leaning_at flags.now fills.now off.now k m }
{
    let n = normal(flags, fills, off, k);
    if m == 1 {
        return n;
    }
    Flow {
        rho: 0,
        x: -n.x,
        y: -n.y,
        z: -n.z,
    }
}

// What each neighbour weighs by the normal n.
fn weights(flags: &[u8], n: Flow, off: &[usize; 19], k: usize) -> [i64; 19]
    requires { Near (length flags.now) off.now k × Within n.x 131072 × Within n.y 131072 × Within n.z 131072 }
    ensures { result ≡ tab 19 (of_dir (lean_weight_at flags.now (vec n) off.now k)) }
{
    let d = dots(n);
    let mut w = [0i64; 19];
    for i in 1..19 {
        w[i] = weight(flags[k + off[i]], d[i]);
    }
    w
}

// 1 for each neighbour that is a target.
pub fn evens(flags: &[u8], off: &[usize; 19], k: usize) -> [i64; 19]
    requires { Near (length flags.now) off.now k }
    ensures { result ≡ tab 19 (of_dir (even_at flags.now off.now k)) }
{
    let mut w = [0i64; 19];
    for i in 1..19 {
        w[i] = even(flags[k + off[i]]);
    }
    w
}

// The weights by the normal, or even ones where those are all 0.
pub fn used_weights(flags: &[u8], fills: &[u32], off: &[usize; 19], k: usize, m: u8) -> [i64; 19]
    requires { Near (length flags.now) off.now k × (length fills.now ≡ length flags.now) × Filled fills.now }
    ensures { result ≡ tab 19 (of_dir (weight_at flags.now fills.now off.now k m)) }
{
    let w = weights(flags, leaning(flags, fills, off, k, m), off, k);
    if total(w) == 0 {
        return evens(flags, off, k);
    }
    w
}
