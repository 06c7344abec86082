// Section 6 into the lent masses, and the fills worked out.
ghost use Rattle.std.specs.Prelude.{◌≡◌, true, cond, ℕ, ◌+◌, ◌*◌, ◌≤◌, ◌<◌, eqb, pos, length, get_or, ◌≤ℤ◌};
ghost use Rattle.whole.specs.laws.Machine.{Within};
ghost use Rattle.lattice.specs.Lattice.{d2q9, density};
ghost use Rattle.grid.specs.State.{by_flag, liquid, flag_of};
ghost use Rattle.grid.specs.Step.{fill_for};
ghost use Rattle.record.specs.Bytes.{i32_at};
ghost use Rattle.record.specs.Layout.{interfaces};
ghost use Rattle.record.specs.inner.Passes.{Heavy, LoadedBy};

use lattice::fill::part_fill;
use lattice::moments::density;
use nine::cells::own9;
use record::count::{one_interface, one_liquid};
use record::number::i32_at;
use whole::wide;

// The density of a liquid cell; 0 of another.
fn cell_density(flag: u8, parts: &[i32], c: usize) -> i32
    requires c_in_bounds { 9 * c + 9 ≤ length parts.now }
    requires within { liquid flag ≡ true → (k : ℕ) → k < 9 → Within (get_or parts.now (9 * c + k) (pos 0)) 1179648 }
    ensures { result ≡ by_flag flag (pos 0) (density d2q9 (λ (k : ℕ). get_or parts.now (9 * c + k) (pos 0))) (density d2q9 (λ (k : ℕ). get_or parts.now (9 * c + k) (pos 0))) (pos 0) }
{
    if one_liquid(flag) == 0 {
        return 0;
    }
    density(own9(parts, c))
}

// The mass of a cell: the record's of an interface cell, the density of a fluid one.
fn cell_mass(rec: &[u8], flag: u8, at: usize, rho: i32) -> i32
    requires { at + 4 * cond (eqb flag 1) 1 0 ≤ length rec.now }
    ensures { result ≡ by_flag flag (pos 0) (i32_at rec.now at) rho (pos 0) }
{
    if flag == 1 {
        return i32_at(rec, at);
    }
    if flag == 2 {
        return rho;
    }
    0
}

fn cell_fill(flag: u8, m: i32, rho: i32) -> u32
    requires { flag ≡ 1 → pos 294912 ≤ℤ rho }
    ensures { result ≡ fill_for flag m rho }
{
    if flag == 1 {
        return part_fill(wide(m), wide(rho));
    }
    if flag == 2 {
        return 65536;
    }
    0
}

// The mass and the fill of every cell; the masses of the record begin at `from`.
pub fn load_masses(
    rec: &[u8],
    flags: &[u8],
    from: usize,
    parts: &[i32],
    masses: &mut [i32],
    fills: &mut [u32],
)
    requires flags_in_bounds { from + 4 * interfaces (length flags.now) (flag_of flags.now) ≤ length rec.now }
    requires parts_len { length parts.now ≡ 9 * length flags.now }
    requires masses_len { length masses.old ≡ length flags.now }
    requires fills_len { length fills.old ≡ length flags.now }
    requires heavy { Heavy d2q9 9 flags.now parts.now }
    ensures { LoadedBy d2q9 9 rec.now flags.now from parts.now masses.new fills.new }
{
    let mut at = from;
    for (c, flag) in flags.iter().enumerate() {
        let rho = cell_density(*flag, parts, c);
        let m = cell_mass(rec, *flag, at, rho);
        masses[c] = m;
        fills[c] = cell_fill(*flag, m, rho);
        at += 4 * one_interface(*flag);
    }
}
