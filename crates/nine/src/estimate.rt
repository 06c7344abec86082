// p times the eight equilibrium parts, estimated from below with one division a cell: an axis has twice the box's weight, and so twice its end.
ghost use Rattle.std.specs.Prelude.{◌≡◌, true};
ghost use Rattle.lattice.specs.Cell.{relaxation_good};
ghost use Rattle.lattice.specs.inner.Held.{steady_flow};
ghost use Rattle.nine.specs.inner.Ends.{EndsNine};

use landings::estimate::{axis, crossed, rates_of};
use lattice::Flow;

pub fn ends9(v: Flow, p: i64) -> [u64; 18]
    requires { (steady_flow v ≡ true) × (relaxation_good p ≡ true) }
    ensures { EndsNine v p result }
{
    let k = rates_of(v, p);
    let x = axis(v.x, k.vx, k.ox, k.base);
    let z = axis(v.z, k.vz, k.oz, k.base);
    let xz = crossed(v.x, v.z, k.vx, k.vz, k.ox, k.oz, k.base);
    [
        2 * x.a,
        2 * x.b,
        0,
        0,
        2 * z.a,
        2 * z.b,
        0,
        0,
        0,
        0,
        0,
        0,
        0,
        0,
        xz.a,
        xz.b,
        xz.c,
        xz.d,
    ]
}
