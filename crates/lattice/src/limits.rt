// The ranges that document 01 sets by themselves: settings, an interface mass, the carry. Each test takes any number.
ghost use Rattle.std.specs.Prelude.{◌≡◌, ◌&&◌, nat_abs, leb};
ghost use Rattle.lattice.specs.Cell.{mass_good, carry_good, relaxation_good, gravity_good};

use crate::Settings;

fn good_relaxation(p: i64) -> bool
    ensures { result ≡ relaxation_good p }
{
    (1 <= p) & (p <= 2037)
}

// Whether |g| is at most 1048: beyond that its square alone is out of range, and below it the squares fit.
fn small(g: i64) -> bool
    ensures { result ≡ leb (nat_abs g) 1048 }
{
    (g <= 1048) & (g >= -1048)
}

fn good_gravity(gx: i64, gy: i64, gz: i64) -> bool
    ensures { result ≡ gravity_good gx gy gz }
{
    if !small(gx) {
        return false;
    }
    if !small(gy) {
        return false;
    }
    if !small(gz) {
        return false;
    }
    gx * gx + gy * gy + gz * gz <= 1099511
}

// Relaxation and gravity in range: what test 3 asks of a step's settings.
pub fn good_settings(s: Settings) -> bool
    ensures { result ≡ (relaxation_good s.p && gravity_good s.gx s.gy s.gz) }
{
    good_relaxation(s.p) & good_gravity(s.gx, s.gy, s.gz)
}

pub fn fair_mass(m: i64) -> bool
    ensures { result ≡ mass_good m }
{
    (m <= 2359296) & (m >= -2359296)
}

pub fn fair_carry(k: i64) -> bool
    ensures { result ≡ carry_good k }
{
    (k <= 1000000000000) & (k >= -1000000000000)
}
