// Section 4 of one number or three, and where the flags behind it stand.
ghost use Rattle.std.specs.Prelude.{◌≡◌, ◌+◌, ◌*◌, ◌≤◌, length};
ghost use Rattle.record.specs.Reading.{totals_in, later_in, flags_at};

use crate::number::{i64_at, u32_at};

// How many numbers section 4 holds: one where the record says so, else three are asked for.
pub fn totals_in(rec: &[u8]) -> usize
    ensures { result ≡ totals_in rec.now }
{
    if rec.len() < 72 {
        return 3;
    }
    if u32_at(rec, 68) == 1 {
        return 1;
    }
    3
}

// Number i behind the carry, poured 1 and taken 2; 0 where the record has the carry alone.
pub fn later_in(rec: &[u8], i: usize) -> i64
    requires rec_in_bounds { 72 + 8 * totals_in rec.now ≤ length rec.now }
    requires i_bound { i ≤ 2 }
    ensures { result ≡ later_in rec.now i }
{
    if totals_in(rec) != 3 {
        return 0;
    }
    i64_at(rec, 72 + 8 * i)
}

// The byte of the first flag.
pub fn flags_at(rec: &[u8]) -> usize
    ensures { result ≡ flags_at rec.now }
{
    76 + 8 * totals_in(rec)
}
