// Stage 4: collision. One division a cell estimates p times every equilibrium part; a few cells in a hundred, where an estimate does not tell, go by the
// divider, which takes the eighteen directions by pairs.
ghost use Rattle.std.specs.Prelude.{◌≡◌, true, length};
ghost use Rattle.whole.specs.Fold.{tab};
ghost use Rattle.lattice.specs.Lattice.{d3q19};
ghost use Rattle.lattice.specs.Cell.{relaxation_good};
ghost use Rattle.lattice.specs.inner.Held.{parts_of, Bounded, vec, Tame, steady_flow};
ghost use Rattle.lattice.specs.Body.{collided_part};

use crate::landing::telling;
use landings::estimate::ends;
use landings::landing::settled;
use landings::pairs::{common_of, relaxed_pair};
use lattice::Flow;
use lattice::directions::{dots, weight_of};

// The nineteen parts after collision in place of those before, each by the divider: part 0 is the density less the others. In place, so that the
// pass over all cells need not keep a second array for it. Stage 5's equilibrium is worked out here too, and with two callers it stays a function
// of its own: melted into that pass it would cost it time and stack.
pub(crate) fn by_divider(f: &mut [i32; 19], v: Flow, p: i64)
    requires { (length f.old ≡ 19) × Bounded f.old 1572864 1572864 × Tame v × (relaxation_good p ≡ true) }
    ensures { (f.new ≡ tab 19 (collided_part d3q19 v.rho (vec v) p (parts_of f.old))) × Bounded f.new 1073741824 33554432 }
{
    let k = common_of(v, p);
    let d = dots(v);
    let mut r = v.rho;
    for h in 0..9 {
        let i = 2 * h + 1;
        let n = relaxed_pair(f[i], f[i + 1], weight_of(i), d[i], k);
        let x = n.a;
        let y = n.b;
        f[i] = x;
        f[i + 1] = y;
        r -= x + y;
    }
    f[0] = r;
}

// The same by the estimate, where it tells of every part.
pub fn collided(f: [i32; 19], v: Flow, p: i64) -> [i32; 19]
    requires { Bounded f 1572864 1572864 × (steady_flow v ≡ true) × (relaxation_good p ≡ true) }
    ensures { (result ≡ tab 19 (collided_part d3q19 v.rho (vec v) p (parts_of f))) × Bounded result 1073741824 33554432 }
{
    let e = ends(v, p);
    let c = (1024 - p) as i32;
    let mut a = [0i32; 19];
    let mut r = v.rho;
    for i in 1..19 {
        let m = settled(e[i - 1], f[i], c);
        a[i] = m;
        r -= m;
    }
    if !telling(e, f, c) {
        let mut b = f;
        by_divider(&mut b, v, p);
        return b;
    }
    a[0] = r;
    a
}
