// Section 7 into the lent parts, nine of each liquid cell.
ghost use Rattle.std.specs.Prelude.{◌≡◌, true, cond, ℕ, ◌+◌, ◌*◌, ◌≤◌, ◌<◌, ◌/◌, ◌%◌, eqb, pos, length};
ghost use Rattle.whole.specs.Fold.{tab};
ghost use Rattle.grid.specs.State.{by_flag, liquid, flag_of};
ghost use Rattle.record.specs.Bytes.{i32_at};
ghost use Rattle.record.specs.Layout.{liquids};

use record::count::one_liquid;
use record::number::i32_at;

// A part of a cell of this flag; 0 of a wall or empty one.
fn held_part(rec: &[u8], flag: u8, at: usize) -> i32
    requires { liquid flag ≡ true → at + 4 ≤ length rec.now }
    ensures { result ≡ by_flag flag (pos 0) (i32_at rec.now at) (i32_at rec.now at) (pos 0) }
{
    if one_liquid(flag) == 0 {
        return 0;
    }
    i32_at(rec, at)
}

// Where the parts of the cell after part k begin: behind a liquid cell's last one.
fn next_at(at: usize, flag: u8, k: usize) -> usize
    requires { at ≤ 4294967296 }
    ensures { result ≡ at + 36 * cond (eqb k 8) (cond (liquid flag) 1 0) 0 }
{
    if k != 8 {
        return at;
    }
    at + 36 * one_liquid(flag)
}

// The parts of every cell, one after the other.
pub fn load_parts(rec: &[u8], flags: &[u8], from: usize, parts: &mut [i32])
    requires flags_in_bounds { from + 36 * liquids (length flags.now) (flag_of flags.now) ≤ length rec.now }
    requires parts_len { length parts.old ≡ 9 * length flags.now }
    requires rec_len_bound { length rec.now ≤ 4294967296 }
    ensures { parts.new ≡ tab (9 * length flags.now) (λ (m : ℕ). by_flag (flag_of flags.now (m / 9)) (pos 0) (i32_at rec.now (from + 4 * (9 * liquids (m / 9) (flag_of flags.now) + m % 9))) (i32_at rec.now (from + 4 * (9 * liquids (m / 9) (flag_of flags.now) + m % 9))) (pos 0)) }
{
    let mut at = from;
    for (m, part) in parts.iter_mut().enumerate() {
        let flag = flags[m / 9];
        let k = m % 9;
        *part = held_part(rec, flag, at + 4 * k);
        at = next_at(at, flag, k);
    }
}
