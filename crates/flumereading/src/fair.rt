// Test 6 of a record, before anything is written: the lowest liquid cell whose numbers break a rule.
ghost use Rattle.std.specs.Prelude.{◌≡◌, cond, not, ℕ, ◌+◌, ◌*◌, ◌≤◌, eqb, pos, length};
ghost use Rattle.whole.specs.Fold.{first, tab};
ghost use Rattle.lattice.specs.Lattice.{d2q9};
ghost use Rattle.grid.specs.State.{liquid, flag_of};
ghost use Rattle.flume.specs.inner.Spread.{spread};
ghost use Rattle.record.specs.Bytes.{i32_at};
ghost use Rattle.record.specs.Layout.{interfaces, liquids};
ghost use Rattle.record.specs.inner.Passes.{fair_of, fair_held};

use lattice::limits::fair_mass;
use nine::cells::place;
use reading::fair::good_body;
use record::count::{one_interface, one_liquid};
use record::number::i32_at;
use whole::wide;

// The nine parts that begin at `at`, at their places, 0 at the idle ones.
fn parts_at(rec: &[u8], at: usize) -> [i32; 19]
    requires { at + 36 ≤ length rec.now }
    ensures { result ≡ tab 19 (spread (pos 0) (λ (k : ℕ). i32_at rec.now (at + 4 * k))) }
{
    let mut v = [0i32; 19];
    for k in 0..9 {
        v[place(k)] = i32_at(rec, at + 4 * k);
    }
    v
}

// A cell of this flag, whose mass stands at m and whose parts at p.
fn fair_cell(rec: &[u8], flag: u8, m: usize, p: usize) -> bool
    requires flag_in_bounds { m + 4 * cond (eqb flag 1) 1 0 ≤ length rec.now }
    requires flag_in_bounds_2 { p + 36 * cond (liquid flag) 1 0 ≤ length rec.now }
    ensures { result ≡ fair_of d2q9 flag (i32_at rec.now m) (λ (k : ℕ). i32_at rec.now (p + 4 * k)) }
{
    if one_liquid(flag) == 0 {
        return true;
    }
    if !good_body(parts_at(rec, p)) {
        return false;
    }
    if flag != 1 {
        return true;
    }
    fair_mass(wide(i32_at(rec, m)))
}

// The lowest cell that breaks a rule, or N; masses begin at `masses`, parts at `parts`.
pub fn first_unfair(rec: &[u8], flags: &[u8], masses: usize, parts: usize) -> usize
    requires flags_in_bounds { masses + 4 * interfaces (length flags.now) (flag_of flags.now) ≤ length rec.now }
    requires flags_in_bounds_2 { parts + 36 * liquids (length flags.now) (flag_of flags.now) ≤ length rec.now }
    ensures { result ≡ first (length flags.now) (λ (c : ℕ). not (fair_held d2q9 9 rec.now flags.now masses parts c)) }
{
    let mut m = masses;
    let mut p = parts;
    for (c, flag) in flags.iter().enumerate() {
        if !fair_cell(rec, *flag, m, p) {
            return c;
        }
        m += 4 * one_interface(*flag);
        p += 36 * one_liquid(*flag);
    }
    flags.len()
}
