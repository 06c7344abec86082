// p times the eighteen equilibrium parts, estimated from below with one division a cell: the true number lies above and less than 2^-13 above.
ghost use Rattle.std.specs.Prelude.{◌≡◌, true, pos, ◌+ℤ◌, ◌-ℤ◌, ◌*ℤ◌, ◌≤ℤ◌};
ghost use Rattle.std.specs.Int.Signed.{quot_z, shr_z};
ghost use Rattle.whole.specs.laws.Machine.{Within};
ghost use Rattle.lattice.specs.Cell.{relaxation_good};
ghost use Rattle.lattice.specs.inner.Held.{steady_flow};
ghost use Rattle.landings.specs.inner.Estimate.{RatesAre, axis_end, axis_back, EndsAre, CrossedAre, diagonal_end, diagonal_back, EndsNear};

use lattice::Flow;
use whole::wide;

// What the ends share: p·x/ρ in 2^-33 and p·x/12 in 2^-32 of each component, and the even part of all, p·(2ρ² − 3|j|²)/72ρ, in 2^-32.
#[derive(Clone, Copy)]
pub struct Rates {
    pub vx: i64,
    pub vy: i64,
    pub vz: i64,
    pub ox: i64,
    pub oy: i64,
    pub oz: i64,
    pub base: i64,
}

// The ends of a direction and of its opposite.
#[derive(Clone, Copy)]
pub struct Two {
    pub a: u64,
    pub b: u64,
}

// The ends of two directions that cross, and of their opposites.
#[derive(Clone, Copy)]
pub struct Four {
    pub a: u64,
    pub b: u64,
    pub c: u64,
    pub d: u64,
}

fn speed(x: i32, inv: i64) -> i64
    requires { Within (x *ℤ inv) 3057944146984566784 }
    ensures { result ≡ shr_z (x *ℤ inv) 524288 }
{
    (wide(x) * inv) >> 19
}

fn odd(x: i32, c: i64) -> i64
    requires { Within x 393216 × Within c 23330262351872 }
    ensures { result ≡ shr_z (x *ℤ c) 32 }
{
    (wide(x) * c) >> 5
}

// The even part, with t for p·|j|²/ρ in 2^-33.
fn even(p: i64, rho: i32, t: i64) -> i64
    requires { Within p 2037 × Within rho 1179648 × Within t 6880374330716454912 }
    ensures { result ≡ quot_z (p *ℤ rho *ℤ pos 1073741824 -ℤ pos 3 *ℤ shr_z t 16) (pos 9) }
{
    (p * wide(rho) * 1073741824 - 3 * (t >> 4)) / 9
}

pub fn rates_of(v: Flow, p: i64) -> Rates
    requires { (steady_flow v ≡ true) × (relaxation_good p ≡ true) }
    ensures { RatesAre v p result }
{
    let inv = p * 4503599627370496 / wide(v.rho);
    let c = p * 34359738368 / 3;
    let vx = speed(v.x, inv);
    let vy = speed(v.y, inv);
    let vz = speed(v.z, inv);
    Rates {
        vx: vx,
        vy: vy,
        vz: vz,
        ox: odd(v.x, c),
        oy: odd(v.y, c),
        oz: odd(v.z, c),
        base: even(p, v.rho, wide(v.x) * vx + wide(v.y) * vy + wide(v.z) * vz),
    }
}

// Along an axis, weight 2: 2^18 is what the estimate may lack.
pub fn axis(x: i32, v: i64, o: i64, base: i64) -> Two
    requires within { Within x 393216 × Within v 5832565587969 × Within o 286690000000000000 × Within base 430100000000000000 }
    requires pos_bound { (pos 0 ≤ℤ axis_end x v o base) × (pos 0 ≤ℤ axis_back x v o base) }
    ensures { EndsAre (axis_end x v o base) (axis_back x v o base) result }
{
    let a = base + (base - 262144) + ((wide(x) * v) >> 3);
    Two {
        a: (a + 2 * o) as u64,
        b: (a - 2 * o) as u64,
    }
}

// Along a diagonal, weight 1, with e·j = d.
fn diagonal(d: i64, v: i64, o: i64, base: i64) -> Two
    requires within { Within d 786432 × Within v 11665131175938 × Within o 573380000000000000 × Within base 430100000000000000 }
    requires pos_bound { (pos 0 ≤ℤ diagonal_end d v o base) × (pos 0 ≤ℤ diagonal_back d v o base) }
    ensures { EndsAre (diagonal_end d v o base) (diagonal_back d v o base) result }
{
    let a = base - 262144 + ((d * v) >> 4);
    Two {
        a: (a + o) as u64,
        b: (a - o) as u64,
    }
}

// Along the diagonals of two axes: e·j = x + y, −x − y, x − y, −x + y.
pub fn crossed(x: i32, y: i32, vx: i64, vy: i64, ox: i64, oy: i64, base: i64) -> Four
    requires within { Within x 393216 × Within y 393216 × Within vx 5832565587969 × Within vy 5832565587969 × Within ox 286690000000000000 × Within oy 286690000000000000 × Within base 430100000000000000 }
    requires pos_bound { (pos 0 ≤ℤ diagonal_end (x +ℤ y) (vx +ℤ vy) (ox +ℤ oy) base) × (pos 0 ≤ℤ diagonal_back (x +ℤ y) (vx +ℤ vy) (ox +ℤ oy) base) }
    requires pos_bound_2 { (pos 0 ≤ℤ diagonal_end (x -ℤ y) (vx -ℤ vy) (ox -ℤ oy) base) × (pos 0 ≤ℤ diagonal_back (x -ℤ y) (vx -ℤ vy) (ox -ℤ oy) base) }
    ensures { CrossedAre x y vx vy ox oy base result }
{
    let m = diagonal(wide(x) + wide(y), vx + vy, ox + oy, base);
    let n = diagonal(wide(x) - wide(y), vx - vy, ox - oy, base);
    Four {
        a: m.a,
        b: m.b,
        c: n.a,
        d: n.b,
    }
}

pub fn ends(v: Flow, p: i64) -> [u64; 18]
    requires { (steady_flow v ≡ true) × (relaxation_good p ≡ true) }
    ensures { EndsNear v p result }
{
    let k = rates_of(v, p);
    let x = axis(v.x, k.vx, k.ox, k.base);
    let y = axis(v.y, k.vy, k.oy, k.base);
    let z = axis(v.z, k.vz, k.oz, k.base);
    let xy = crossed(v.x, v.y, k.vx, k.vy, k.ox, k.oy, k.base);
    let yz = crossed(v.y, v.z, k.vy, k.vz, k.oy, k.oz, k.base);
    let xz = crossed(v.x, v.z, k.vx, k.vz, k.ox, k.oz, k.base);
    [
        x.a, x.b, y.a, y.b, z.a, z.b, xy.a, xy.b, xy.c, xy.d, yz.a, yz.b, yz.c, yz.d, xz.a, xz.b,
        xz.c, xz.d,
    ]
}
