// The reader's tests of a section, and of the sections in a row.
ghost use Rattle.std.specs.Prelude.{◌≡◌, ◌≤◌};
ghost use Rattle.grid.specs.Outcome.{accepted};
ghost use Rattle.grid.specs.Answer.{Done};
ghost use Rattle.record.specs.Places.{counts, settings_from, origin_from, totals_from, cells_from};
ghost use Rattle.record.specs.Reading.{totals_in, whole, fronts_on, ends_on};
ghost use Rattle.record.specs.inner.Behind.{ends};

use crate::Counts;
use crate::number::u32_at;
use crate::places::totals_in;
use grid::refusals::{Answer, Refusal};

pub fn passed(a: Answer) -> bool
    ensures { result ≡ accepted a }
{
    match a {
        Ok(()) => true,
        Err(_) => false,
    }
}

// A section of n numbers, from its count on.
pub fn section(rec: &[u8], number: usize, from: usize, n: usize, size: usize) -> Answer
    requires from_bound { from ≤ 4294967296 }
    requires n_bound { n ≤ 4294967296 }
    requires size_bound { size ≤ 8 }
    ensures { result ≡ whole rec.now number from n size Done }
{
    if rec.len() < from + 4 {
        return Err(Refusal::BadEnd(from));
    }
    if u32_at(rec, from) as usize != n {
        return Err(Refusal::BadCount(number));
    }
    if rec.len() < from + 4 + size * n {
        return Err(Refusal::BadEnd(from));
    }
    Ok(())
}

// Sections 2 to 5 over any counts: settings, origin, k totals and n flags.
pub fn sections_behind(rec: &[u8], held: Counts, k: usize, n: usize) -> Answer
    requires sides_bound { held.sides ≤ 3 }
    requires settings_bound { held.settings ≤ 5 }
    requires origin_bound { held.origin ≤ 3 }
    requires k_bound { k ≤ 3 }
    requires n_bound { n ≤ 262144 }
    ensures { result ≡ fronts_on rec.now held k n Done }
{
    let second = 4 + 4 * held.sides;
    section(rec, 2, second, held.settings, 4)?;
    let third = second + 4 + 4 * held.settings;
    section(rec, 3, third, held.origin, 8)?;
    let fourth = third + 4 + 8 * held.origin;
    section(rec, 4, fourth, k, 8)?;
    section(rec, 5, fourth + 4 + 8 * k, n, 1)
}

// The same of the grid record, whose section 4 has one number or three.
pub fn front_sections(rec: &[u8], n: usize) -> Answer
    requires { n ≤ 262144 }
    ensures { result ≡ whole rec.now 2 (settings_from counts) counts.settings 4 (whole rec.now 3 (origin_from counts) counts.origin 8 (whole rec.now 4 (totals_from counts) (totals_in rec.now) 8 (whole rec.now 5 (cells_from counts (totals_in rec.now)) n 1 Done))) }
{
    let held = Counts {
        sides: 3,
        settings: 5,
        origin: 3,
        parts: 19,
    };
    sections_behind(rec, held, totals_in(rec), n)
}

// Sections 6 and 7, i masses and m parts, from the byte where section 6 begins, and that nothing follows.
pub fn sections_to_end(rec: &[u8], from: usize, i: usize, m: usize) -> Answer
    requires from_bound { from ≤ 262244 }
    requires i_bound { i ≤ 262144 }
    requires m_bound { m ≤ 4980736 }
    ensures { result ≡ ends_on rec.now from i m Done }
{
    section(rec, 6, from, i, 4)?;
    let behind = from + 4 + 4 * i;
    section(rec, 7, behind, m, 4)?;
    let end = behind + 4 + 4 * m;
    if rec.len() > end {
        return Err(Refusal::BadEnd(end));
    }
    Ok(())
}

// The same of the grid record, 19 parts a cell.
pub fn cell_sections(rec: &[u8], from: usize, i: usize, l: usize) -> Answer
    requires from_bound { from ≤ 262244 }
    requires i_bound { i ≤ 262144 }
    requires l_bound { l ≤ 262144 }
    ensures { result ≡ ends rec.now from i l Done }
{
    sections_to_end(rec, from, i, 19 * l)
}
