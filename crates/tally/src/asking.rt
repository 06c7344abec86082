// One pool or three? The question, for every input.
ghost use Rattle.std.specs.Prelude.{◌≡◌, length, replicate};
ghost use Rattle.grid.specs.State.{lent};
ghost use Rattle.pools.specs.Outcome.{room, tested, Asked};

use crate::listing;
use grid::refusals::{Answer, Refusal};
use grid::{Sides, extent};
use pools::flood;
use pumps::entry;

// Tests 1, 2, 4, 5 and 6 of what is lent.
fn entered(
    flags: &[u8],
    parts: &[i32],
    masses: &[i32],
    fills: &[u32],
    carry: &[i64],
    marks: &[u16],
    work: &[u32],
    counts: &[u32],
    waters: &[i64],
    s: Sides,
) -> Answer
    ensures { result ≡ tested s (lent flags.now parts.now masses.now fills.now carry.now) (room marks.now work.now counts.now waters.now) }
{
    if !extent::good_sides(s) {
        return Err(Refusal::BadSides);
    }
    let n = extent::cells(s);
    let set = entry::three_lengths(
        flags.len(),
        parts.len(),
        masses.len(),
        fills.len(),
        carry.len(),
        n,
    );
    if !(set & (marks.len() == n) & (work.len() == n) & (counts.len() == waters.len())) {
        return Err(Refusal::BadLength);
    }
    entry::checked(flags, parts, masses, fills, carry, s)
}

// The numbers to work with are left at 0.
fn clear(work: &mut [u32])
    ensures { work.new ≡ replicate (length work.old) 0 }
{
    work.fill(0);
}

// The pools of a lent set: each cell's mark, each pool's cells and water in the order of the lowest cells, and their number.
pub fn pools(
    flags: &[u8],
    parts: &[i32],
    masses: &[i32],
    fills: &[u32],
    carry: &[i64],
    marks: &mut [u16],
    work: &mut [u32],
    counts: &mut [u32],
    waters: &mut [i64],
    s: Sides,
) -> Result<usize, Refusal>
    ensures { Asked s (lent flags.now parts.now masses.now fills.now carry.now) (room marks.old work.old counts.old waters.old) result (room marks.new work.new counts.new waters.new) }
{
    entered(
        flags, parts, masses, fills, carry, marks, work, counts, waters, s,
    )?;
    let n = flood::flood(flags, marks, work, s);
    clear(work);
    if counts.len() < n {
        flood::clear(marks);
        return Err(Refusal::BadPools(n));
    }
    listing::tally(marks, masses, counts, waters, n);
    Ok(n)
}
