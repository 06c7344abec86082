// Stage 1: what a cell rebuilds, towards an empty neighbour or along its normal.
ghost use Rattle.std.specs.Prelude.{◌≡◌, pos, nat_abs, ◌≤ℤ◌};
ghost use Rattle.whole.specs.laws.Machine.{Within};
ghost use Rattle.lattice.specs.Lattice.{dot};
ghost use Rattle.lattice.specs.Cell.{gas_pair};
ghost use Rattle.lattice.specs.inner.Held.{vec, Tame};

use lattice::Flow;
use lattice::moments::{speed_squared, times};

// What both opposite parts add up to at weight w, with d = e·j.
pub fn gas_pair(v: Flow, w: i64, d: i32) -> i64
    requires { Tame v × (pos 0 ≤ℤ w) × Within w 4 × Within d 1179648 }
    ensures { result ≡ gas_pair (nat_abs w) v.rho d (dot (vec v) (vec v)) }
{
    let r = times(v.rho, v.rho);
    w * 16384 * (2 * r + 9 * times(d, d) - 3 * speed_squared(v)) / r
}
