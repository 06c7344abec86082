// Stage 4: collision at the flume's weights, in the shape of the box's. An idle part is 0 and stays so.
ghost use Rattle.std.specs.Prelude.{◌≡◌, true, length};
ghost use Rattle.whole.specs.Fold.{tab};
ghost use Rattle.lattice.specs.Cell.{relaxation_good};
ghost use Rattle.lattice.specs.inner.Held.{parts_of, Bounded, vec, Tame, steady_flow};
ghost use Rattle.lattice.specs.Body.{collided_part};
ghost use Rattle.flume.specs.inner.Spread.{spread_lattice};
ghost use Rattle.nine.specs.inner.Cells.{Quiet};

use crate::estimate::ends9;
use crate::weights::weight9;
use collision::landing::highest;
use landings::landing::settled;
use landings::pairs::{common_of, relaxed_pair};
use lattice::Flow;
use lattice::directions::dots;

// The nineteen parts after collision in place of those before, each by the divider.
pub fn by_divider9(f: &mut [i32; 19], v: Flow, p: i64)
    requires { (length f.old ≡ 19) × Bounded f.old 1572864 1572864 × Tame v × (relaxation_good p ≡ true) }
    ensures { (f.new ≡ tab 19 (collided_part spread_lattice v.rho (vec v) p (parts_of f.old))) × Bounded f.new 1073741824 33554432 }
{
    let k = common_of(v, p);
    let d = dots(v);
    let mut r = v.rho;
    for h in 0..9 {
        let i = 2 * h + 1;
        let n = relaxed_pair(f[i], f[i + 1], weight9(i), d[i], k);
        let x = n.a;
        let y = n.b;
        f[i] = x;
        f[i + 1] = y;
        r -= x + y;
    }
    f[0] = r;
}

// The same by the estimate, where its low words tell that no end lies just below a whole number.
pub fn collided9(f: [i32; 19], v: Flow, p: i64) -> [i32; 19]
    requires { Bounded f 1572864 1441792 × (steady_flow v ≡ true) × (relaxation_good p ≡ true) × Quiet f }
    ensures { (result ≡ tab 19 (collided_part spread_lattice v.rho (vec v) p (parts_of f))) × Bounded result 1073741824 33554432 }
{
    let e = ends9(v, p);
    let c = (1024 - p) as i32;
    let mut a = [0i32; 19];
    let mut r = v.rho;
    // By pairs, as the divider goes: what both leave of the density is taken off once.
    for h in 0..9 {
        let i = 2 * h + 1;
        let m = settled(e[i - 1], f[i], c);
        let n = settled(e[i], f[i + 1], c);
        a[i] = m;
        a[i + 1] = n;
        r -= m + n;
    }
    if highest(e) > 4293918719 {
        let mut b = f;
        by_divider9(&mut b, v, p);
        return b;
    }
    a[0] = r;
    a
}
