// The table of directions in code, all that knows which way each goes: weight, opposite, e·v, momentum. Weights by a test and e·v as one array: a `const` table would
// be rebuilt at each use. Where neighbours lie is in grid (neighbours), the axes of the normal too (normal).
ghost use Rattle.std.specs.Prelude.{◌≡◌, ℕ, ◌+◌, ◌*◌, ◌<◌, pos, ◌-ℤ◌};
ghost use Rattle.whole.specs.Fold.{tab, Dir};
ghost use Rattle.whole.specs.laws.Machine.{Within};
ghost use Rattle.lattice.specs.Lattice.{dot, d3q19, density, momentum};
ghost use Rattle.lattice.specs.inner.Held.{parts_of, Bounded, vec};

use crate::Flow;
use crate::moments::density;

// The weight of direction i of 1..18, in 36ths.
pub fn weight_of(i: usize) -> i64
    requires { (0 < i) × (i < 19) }
    ensures { result ≡ pos (d3q19.weight i) }
{
    if i < 7 {
        return 2;
    }
    1
}

// The opposite of odd i is i + 1.
pub fn opposite(i: usize) -> usize
    requires { Dir 18 i }
    ensures { result ≡ d3q19.opp i }
{
    if i % 2 == 1 {
        return i + 1;
    }
    i - 1
}

// e·v of each direction.
pub fn dots(v: Flow) -> [i32; 19]
    requires { Within v.x 1000000000 × Within v.y 1000000000 × Within v.z 1000000000 }
    ensures { result ≡ tab 19 (λ (k : ℕ). dot (d3q19.e k) (vec v)) }
{
    let x = v.x;
    let y = v.y;
    let z = v.z;
    [
        0,
        x,
        -x,
        y,
        -y,
        z,
        -z,
        x + y,
        -x - y,
        x - y,
        -x + y,
        y + z,
        -y - z,
        y - z,
        -y + z,
        x + z,
        -x - z,
        x - z,
        -x + z,
    ]
}

// What pair h carries along its direction.
fn apart(f: [i32; 19], h: usize) -> i32
    requires { Bounded f 1073741824 33554432 × (h < 9) }
    ensures { result ≡ parts_of f (2 * h + 1) -ℤ parts_of f (2 * h + 2) }
{
    f[2 * h + 1] - f[2 * h + 2]
}

pub fn flow_of(f: [i32; 19]) -> Flow
    requires { Bounded f 1073741824 33554432 }
    ensures { (result.rho ≡ density d3q19 (parts_of f)) × (vec result ≡ momentum d3q19 (parts_of f)) }
{
    let xy = apart(f, 3);
    let yx = apart(f, 4);
    let yz = apart(f, 5);
    let zy = apart(f, 6);
    let xz = apart(f, 7);
    let zx = apart(f, 8);
    Flow {
        rho: density(f),
        x: apart(f, 0) + xy + yx + xz + zx,
        y: apart(f, 1) + xy - yx + yz + zy,
        z: apart(f, 2) + yz - zy + xz - zx,
    }
}
