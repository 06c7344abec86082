// Section 7 into the lent parts.
ghost use Rattle.std.specs.Prelude.{◌≡◌, cond, ℕ, ◌+◌, ◌*◌, ◌≤◌, ◌/◌, ◌%◌, pos, length};
ghost use Rattle.whole.specs.Fold.{tab};
ghost use Rattle.grid.specs.State.{by_flag, liquid, flag_of};
ghost use Rattle.record.specs.Bytes.{i32_at};
ghost use Rattle.record.specs.Layout.{liquids};

use grid::cells::paste;
use record::count::one_liquid;
use record::number::i32_at;

// The nineteen parts that begin at `at`.
pub fn parts_at(rec: &[u8], at: usize) -> [i32; 19]
    requires { at + 76 ≤ length rec.now }
    ensures { result ≡ tab 19 (λ (k : ℕ). i32_at rec.now (at + 4 * k)) }
{
    let mut v = [0i32; 19];
    for k in 0..19 {
        v[k] = i32_at(rec, at + 4 * k);
    }
    v
}

// The parts of a cell of this flag; 0 of a wall or empty one.
fn cell_parts(rec: &[u8], flag: u8, at: usize) -> [i32; 19]
    requires { at + 76 * cond (liquid flag) 1 0 ≤ length rec.now }
    ensures { result ≡ tab 19 (λ (k : ℕ). by_flag flag (pos 0) (i32_at rec.now (at + 4 * k)) (i32_at rec.now (at + 4 * k)) (pos 0)) }
{
    if one_liquid(flag) == 0 {
        return [0i32; 19];
    }
    parts_at(rec, at)
}

// The parts of every cell.
pub fn load_parts(rec: &[u8], flags: &[u8], from: usize, parts: &mut [i32])
    requires flags_in_bounds { from + 76 * liquids (length flags.now) (flag_of flags.now) ≤ length rec.now }
    requires parts_len { length parts.old ≡ 19 * length flags.now }
    ensures { parts.new ≡ tab (19 * length flags.now) (λ (m : ℕ). by_flag (flag_of flags.now (m / 19)) (pos 0) (i32_at rec.now (from + 4 * (19 * liquids (m / 19) (flag_of flags.now) + m % 19))) (i32_at rec.now (from + 4 * (19 * liquids (m / 19) (flag_of flags.now) + m % 19))) (pos 0)) }
{
    let mut at = from;
    for (c, flag) in flags.iter().enumerate() {
        paste(parts, 19 * c, cell_parts(rec, *flag, at));
        at += 76 * one_liquid(*flag);
    }
}
