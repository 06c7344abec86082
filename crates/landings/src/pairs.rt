// Stage 4 of a pair of opposite parts, by the divider: they share the even part of Q and differ in the sign of the odd one.
ghost use Rattle.std.specs.Prelude.{◌≡◌, true};
ghost use Rattle.whole.specs.laws.Machine.{Within};
ghost use Rattle.lattice.specs.Cell.{relaxation_good};
ghost use Rattle.lattice.specs.inner.Held.{Tame};
ghost use Rattle.landings.specs.inner.Pairs.{CommonIs, Ready, grown, Paired};

use lattice::Flow;
use lattice::moments::{speed_squared, times};
use whole::wide;

// What the eighteen collisions of a cell share: 2ρ² − 3|j|², −6ρ, −72ρ, 73,728ρ and p.
// The signs keep 32 x 32 → 64 products on Arm, where a factor known to be positive is widened otherwise.
#[derive(Clone, Copy)]
pub struct Common {
    pub base: i64,
    pub six: i32,
    pub seventy: i32,
    pub den: i64,
    pub p: i64,
}

#[derive(Clone, Copy)]
pub struct Pair {
    pub a: i32,
    pub b: i32,
}

pub fn common_of(v: Flow, p: i64) -> Common
    requires { Tame v × (relaxation_good p ≡ true) }
    ensures { CommonIs v p result }
{
    let den = 73728 * wide(v.rho);
    Common {
        base: 2 * times(v.rho, v.rho) - 3 * speed_squared(v),
        six: -6 * v.rho,
        seventy: -72 * v.rho,
        den: den,
        p: p,
    }
}

// Part f at weight w and Q = q, relaxed, by the divider.
fn relaxed(f: i32, w: i64, q: i64, k: Common) -> i32
    requires { Ready k × Within f 1572864 × Within w 4 × Within q 26000000000000 }
    ensures { (result ≡ grown f w q k) × Within result 33554432 }
{
    f + (k.p * (w * q + times(k.seventy, f)) / k.den) as i32
}

// Parts f and g of a direction with e·j = d and of its opposite.
pub fn relaxed_pair(f: i32, g: i32, w: i64, d: i32, k: Common) -> Pair
    requires { Ready k × Within f 1572864 × Within g 1572864 × Within w 4 × Within d 1179648 }
    ensures { Paired f g w d k result }
{
    let even = k.base + times(9 * d, d);
    let odd = times(k.six, d);
    Pair {
        a: relaxed(f, w, even - odd, k),
        b: relaxed(g, w, even + odd, k),
    }
}
