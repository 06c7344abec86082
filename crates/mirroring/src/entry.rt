// What a mirror is refused for: tests 1 to 6.
ghost use Rattle.std.specs.Prelude.{◌≡◌};
ghost use Rattle.grid.specs.State.{lent};
ghost use Rattle.index.specs.Index.{index};
ghost use Rattle.index.specs.Held.{held};
ghost use Rattle.mirroring.specs.Outcome.{mirror_answer};

use grid::refusals::{Answer, Refusal};
use grid::{Sides, extent};
use index::words;
use pumps::entry;

// Tests 1; 2 of both sets and of the second's index; 3 of the axis; 4, 5, 6 of the first set.
pub(crate) fn entered(
    flags: &[u8],
    parts: &[i32],
    masses: &[i32],
    fills: &[u32],
    carry: &[i64],
    flags2: &[u8],
    parts2: &[i32],
    masses2: &[i32],
    fills2: &[u32],
    carry2: &[i64],
    words2: &[u64],
    count2: &[u64],
    axis: usize,
    s: Sides,
) -> Answer
    ensures { result ≡ mirror_answer s axis (lent flags.now parts.now masses.now fills.now carry.now) (held (lent flags2.now parts2.now masses2.now fills2.now carry2.now) (index words2.now count2.now)) }
{
    if !extent::good_sides(s) {
        return Err(Refusal::BadSides);
    }
    let n = extent::cells(s);
    let first = entry::three_lengths(
        flags.len(),
        parts.len(),
        masses.len(),
        fills.len(),
        carry.len(),
        n,
    );
    let second = entry::three_lengths(
        flags2.len(),
        parts2.len(),
        masses2.len(),
        fills2.len(),
        carry2.len(),
        n,
    );
    let beside = words::good_lengths(words2.len(), count2.len(), n);
    if !((first & second) & beside) {
        return Err(Refusal::BadLength);
    }
    if axis > 2 {
        return Err(Refusal::BadSetting(0));
    }
    entry::checked(flags, parts, masses, fills, carry, s)
}
