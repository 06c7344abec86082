// Test 6 of a record, before anything is written: the lowest liquid cell whose numbers break a rule.
ghost use Rattle.std.specs.Prelude.{◌≡◌, cond, not, ℕ, ◌+◌, ◌*◌, ◌≤◌, eqb, length};
ghost use Rattle.whole.specs.Fold.{first};
ghost use Rattle.lattice.specs.Lattice.{d3q19};
ghost use Rattle.lattice.specs.inner.Held.{parts_of};
ghost use Rattle.lattice.specs.Body.{body_good};
ghost use Rattle.grid.specs.State.{liquid, flag_of};
ghost use Rattle.record.specs.Bytes.{i32_at};
ghost use Rattle.record.specs.Layout.{interfaces, liquids};
ghost use Rattle.record.specs.inner.Passes.{fair_by, fair_at};

use crate::load::parts_at;
use lattice::limits::fair_mass;
use lattice::rules::{all_inside, fair_parts};
use record::count::{one_interface, one_liquid};
use record::number::i32_at;
use whole::wide;

// Parts, density and speed in their ranges, of any parts.
pub fn good_body(f: [i32; 19]) -> bool
    ensures { result ≡ body_good d3q19 (parts_of f) }
{
    if !all_inside(f) {
        return false;
    }
    fair_parts(f)
}

// A cell of this flag, whose mass stands at m and whose parts at p.
fn fair_cell(rec: &[u8], flag: u8, m: usize, p: usize) -> bool
    requires flag_in_bounds { m + 4 * cond (eqb flag 1) 1 0 ≤ length rec.now }
    requires flag_in_bounds_2 { p + 76 * cond (liquid flag) 1 0 ≤ length rec.now }
    ensures { result ≡ fair_by flag (i32_at rec.now m) (λ (k : ℕ). i32_at rec.now (p + 4 * k)) }
{
    if one_liquid(flag) == 0 {
        return true;
    }
    if !good_body(parts_at(rec, p)) {
        return false;
    }
    if flag != 1 {
        return true;
    }
    fair_mass(wide(i32_at(rec, m)))
}

// The lowest cell that breaks a rule, or N; masses begin at `masses`, parts at `parts`.
pub fn first_unfair(rec: &[u8], flags: &[u8], masses: usize, parts: usize) -> usize
    requires flags_in_bounds { masses + 4 * interfaces (length flags.now) (flag_of flags.now) ≤ length rec.now }
    requires flags_in_bounds_2 { parts + 76 * liquids (length flags.now) (flag_of flags.now) ≤ length rec.now }
    ensures { result ≡ first (length flags.now) (λ (c : ℕ). not (fair_at rec.now flags.now masses parts c)) }
{
    let mut m = masses;
    let mut p = parts;
    for (c, flag) in flags.iter().enumerate() {
        if !fair_cell(rec, *flag, m, p) {
            return c;
        }
        m += 4 * one_interface(*flag);
        p += 76 * one_liquid(*flag);
    }
    flags.len()
}
