// The stress of a cell's parts against stage 5's equilibrium, by the nine pairs of opposite directions. Of a pair's two quotients w·Q/72ρ the
// even part of Q is divided by 6ρ once; what is left to each is a quotient by 12/w.
ghost use Rattle.std.specs.Prelude.{◌≡◌, true, ◌+◌, ◌*◌, ◌/◌, ◌<◌, ◌≤◌, pos, ◌+ℤ◌, ◌-ℤ◌};
ghost use Rattle.whole.specs.laws.Machine.{Within};
ghost use Rattle.lattice.specs.Lattice.{d3q19};
ghost use Rattle.lattice.specs.inner.Held.{parts_of, Bounded, vec, steady_flow};
ghost use Rattle.turbulence.specs.Turbulence.{beyond, square};
ghost use Rattle.turbulence.specs.inner.Post.{SharedIs, Apt, even_share, pair_of, both, NineIs, Small, tension_of};

use lattice::Flow;
use lattice::moments::{speed_squared, times};

// What the pairs share: 2ρ² − 3|j|², 6ρ, and 2^43/6ρ from below.
#[derive(Clone, Copy)]
pub struct Shared {
    pub base: i64,
    pub den: u64,
    pub inv: u64,
}

// The nine pairs: axes x, y, z, then the six diagonals.
#[derive(Clone, Copy)]
pub struct Nine {
    pub x: i32,
    pub y: i32,
    pub z: i32,
    pub xy: i32,
    pub yx: i32,
    pub yz: i32,
    pub zy: i32,
    pub xz: i32,
    pub zx: i32,
}

// The only division: the pairs' own are products with its reciprocal.
pub fn shared_of(v: Flow) -> Shared
    requires { steady_flow v ≡ true }
    ensures { SharedIs v result }
{
    let den = 6 * (v.rho as u64);
    Shared {
        base: 2 * times(v.rho, v.rho) - 3 * speed_squared(v),
        den: den,
        inv: 8796093022208 / den,
    }
}

// floor(u/den): what the product gives is the quotient or one less.
fn share(u: u64, den: u64, inv: u64) -> u64
    requires den_nonzero { (0 < den) × (den ≤ 7077888) }
    requires u_bound { (u ≤ 1179648 * den) × (u ≤ 8796093022208) }
    requires den_bound { (inv * den ≤ 8796093022208) × (8796093022208 < (inv + 1) * den) }
    ensures { result ≡ u / den }
{
    let e = (u * inv) >> 43;
    if u - e * den < den {
        return e;
    }
    e + 1
}

// What both directions of a pair with e·j = d share of their quotients.
fn even_share(d: i32, k: Shared) -> i32
    requires { Apt d k }
    ensures { result ≡ pos (even_share d k) }
{
    share((k.base + times(9 * d, d)) as u64, k.den, k.inv) as i32
}

// The equilibrium's parts of a pair together; n is 12/w.
pub fn equilibrium_pair(d: i32, k: Shared, n: u32) -> i32
    requires { Apt d k × (0 < n) }
    ensures { (result ≡ pair_of d k n) × Within result 2359296 }
{
    let a = even_share(d, k);
    ((a + d) as u32 / n + (a - d) as u32 / n) as i32
}

// What pair h holds beyond e.
pub fn slack(f: [i32; 19], h: usize, e: i32) -> i32
    requires { Bounded f 1572864 1572864 × (h < 9) × Within e 2359296 }
    ensures { (result ≡ both (parts_of f) h -ℤ e) × Within result 8388608 }
{
    f[2 * h + 1] + f[2 * h + 2] - e
}

// f − eq by pairs.
pub fn beyond(f: [i32; 19], v: Flow) -> Nine
    requires { Bounded f 1572864 1572864 × (steady_flow v ≡ true) }
    ensures { NineIs (beyond d3q19 v.rho (vec v) (parts_of f)) result × Small result }
{
    let k = shared_of(v);
    Nine {
        x: slack(f, 0, equilibrium_pair(v.x, k, 6)),
        y: slack(f, 1, equilibrium_pair(v.y, k, 6)),
        z: slack(f, 2, equilibrium_pair(v.z, k, 6)),
        xy: slack(f, 3, equilibrium_pair(v.x + v.y, k, 12)),
        yx: slack(f, 4, equilibrium_pair(v.x - v.y, k, 12)),
        yz: slack(f, 5, equilibrium_pair(v.y + v.z, k, 12)),
        zy: slack(f, 6, equilibrium_pair(v.y - v.z, k, 12)),
        xz: slack(f, 7, equilibrium_pair(v.x + v.z, k, 12)),
        zx: slack(f, 8, equilibrium_pair(v.x - v.z, k, 12)),
    }
}

fn square(a: i32) -> u64
    requires { Within a 67108864 }
    ensures { (result ≡ square a) × (result ≤ 4503599627370496) }
{
    times(a, a) as u64
}

// (a + b + c + d + e)²
fn square_of_sum(a: i32, b: i32, c: i32, d: i32, e: i32) -> u64
    requires { Within a 8388608 × Within b 8388608 × Within c 8388608 × Within d 8388608 × Within e 8388608 }
    ensures { (result ≡ square (a +ℤ b +ℤ c +ℤ d +ℤ e)) × (result ≤ 4503599627370496) }
{
    square(a + b + c + d + e)
}

// (a − b)²
fn square_of_difference(a: i32, b: i32) -> u64
    requires { Within a 8388608 × Within b 8388608 }
    ensures { (result ≡ square (a -ℤ b)) × (result ≤ 4503599627370496) }
{
    square(a - b)
}

// T by pairs: the diagonal of the tensor once, the rest twice.
pub fn tension(n: Nine) -> u64
    requires { Small n }
    ensures { (result ≡ tension_of n) × (result < 1152921504606846976) }
{
    let xx = square_of_sum(n.x, n.xy, n.yx, n.xz, n.zx);
    let yy = square_of_sum(n.y, n.xy, n.yx, n.yz, n.zy);
    let zz = square_of_sum(n.z, n.yz, n.zy, n.xz, n.zx);
    let xy = square_of_difference(n.xy, n.yx);
    let yz = square_of_difference(n.yz, n.zy);
    let xz = square_of_difference(n.xz, n.zx);
    xx + yy + zz + 2 * (xy + yz + xz)
}
