// Density of a cell, speed, and the test of stage 3. Directions 1..18 come in nine pairs (1,2), (3,4) .. (17,18).
ghost use Rattle.std.specs.Prelude.{◌≡◌, ◌+◌, ◌*◌, ◌<◌, ◌-ℤ◌, ◌*ℤ◌};
ghost use Rattle.whole.specs.laws.Machine.{Within};
ghost use Rattle.lattice.specs.Lattice.{dot, d3q19, density};
ghost use Rattle.lattice.specs.inner.Held.{parts_of, Bounded, vec, steady_flow};

use crate::Flow;
use whole::wide;

// A product in twice the width: any two factors fit.
pub fn times(a: i32, b: i32) -> i64
    ensures { result ≡ a *ℤ b }
{
    wide(a) * wide(b)
}

pub fn density(f: [i32; 19]) -> i32
    requires { Bounded f 1073741824 33554432 }
    ensures { result ≡ density d3q19 (parts_of f) }
{
    let mut r = f[0];
    for i in 1..19 {
        r += f[i];
    }
    r
}

// |j|²
pub fn speed_squared(v: Flow) -> i64
    requires { Within v.x 400000000 × Within v.y 400000000 × Within v.z 400000000 }
    ensures { result ≡ dot (vec v) (vec v) }
{
    times(v.x, v.x) + times(v.y, v.y) + times(v.z, v.z)
}

// Density in its range and 9·|j|² ≤ ρ².
pub fn steady(v: Flow) -> bool
    requires { Within v.x 400000000 × Within v.y 400000000 × Within v.z 400000000 }
    ensures { result ≡ steady_flow v }
{
    if v.rho < 294912 {
        return false;
    }
    if v.rho > 1179648 {
        return false;
    }
    9 * speed_squared(v) <= times(v.rho, v.rho)
}
