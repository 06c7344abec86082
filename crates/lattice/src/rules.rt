// The rules of number 6 that one cell keeps or breaks by itself. `good_liquid` takes anything a caller may lend.
ghost use Rattle.std.specs.Prelude.{◌≡◌, cond, pos, eqb};
ghost use Rattle.whole.specs.Fold.{all};
ghost use Rattle.lattice.specs.Lattice.{d3q19};
ghost use Rattle.lattice.specs.Cell.{part_good};
ghost use Rattle.lattice.specs.inner.Held.{parts_of, Bounded, good_fluid, good_interface};
ghost use Rattle.lattice.specs.Body.{eq_z, body_good};

use crate::directions::flow_of;
use crate::fill::part_fill;
use crate::limits::fair_mass;
use crate::moments::steady;
use whole::wide;

fn inside(v: i32) -> bool
    ensures { result ≡ part_good v }
{
    (v <= 1179648) & (v >= -1179648)
}

pub fn all_inside(f: [i32; 19]) -> bool
    ensures { result ≡ all 19 (λ k. part_good (parts_of f k)) }
{
    let mut w = true;
    for v in f {
        w = w & inside(v);
    }
    w
}

pub fn all_zero(f: [i32; 19]) -> bool
    ensures { result ≡ all 19 (λ k. eq_z (parts_of f k) (pos 0)) }
{
    let mut w = true;
    for v in f {
        w = w & (v == 0);
    }
    w
}

// Parts, density and speed in their ranges, of parts as a step leaves them.
pub fn fair_parts(f: [i32; 19]) -> bool
    requires { Bounded f 1073741824 33554432 }
    ensures { result ≡ body_good d3q19 (parts_of f) }
{
    all_inside(f) & steady(flow_of(f))
}

// Whether a liquid cell keeps every rule: fluid where fl is 2, else interface.
pub fn good_liquid(fl: u8, f: [i32; 19], m: i32, fill: u32) -> bool
    ensures { result ≡ cond (eqb fl 2) (good_fluid d3q19 (parts_of f) m fill) (good_interface d3q19 (parts_of f) m fill) }
{
    if !all_inside(f) {
        return false;
    }
    let v = flow_of(f);
    if !steady(v) {
        return false;
    }
    if fl == 2 {
        return (m == v.rho) & (fill == 65536);
    }
    if !fair_mass(wide(m)) {
        return false;
    }
    fill == part_fill(wide(m), wide(v.rho))
}
