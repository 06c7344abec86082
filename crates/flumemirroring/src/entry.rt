// What a flume's mirror is refused for: tests 1 to 6.
ghost use Rattle.std.specs.Prelude.{◌≡◌};
ghost use Rattle.grid.specs.State.{lent};
ghost use Rattle.flumemirroring.specs.Outcome.{flume_axis, flume_mirror_answer};

use flume::{FlumeSides, extent};
use flumegrid::{checking, lengths};
use grid::refusals::{Answer, Refusal};

// Test 3: an axis that a flume has, x or z, by the box's numbers.
fn good_axis(axis: usize) -> bool
    ensures { result ≡ flume_axis axis }
{
    (axis == 0) | (axis == 2)
}

// Tests 1; 2 of both sets; 3 of the axis; 4, 5, 6 of the first set.
pub(crate) fn entered(
    flags: &[u8],
    parts: &[i32],
    masses: &[i32],
    fills: &[u32],
    carry: &[i64],
    flags2: &[u8],
    parts2: &[i32],
    masses2: &[i32],
    fills2: &[u32],
    carry2: &[i64],
    axis: usize,
    s: FlumeSides,
) -> Answer
    ensures { result ≡ flume_mirror_answer s axis (lent flags.now parts.now masses.now fills.now carry.now) (lent flags2.now parts2.now masses2.now fills2.now carry2.now) }
{
    if !extent::good_sides(s) {
        return Err(Refusal::BadSides);
    }
    let n = extent::cells(s);
    let first = lengths::good_lengths9(
        flags.len(),
        parts.len(),
        masses.len(),
        fills.len(),
        carry.len(),
        n,
    );
    let second = lengths::good_lengths9(
        flags2.len(),
        parts2.len(),
        masses2.len(),
        fills2.len(),
        carry2.len(),
        n,
    );
    if !(first & second) {
        return Err(Refusal::BadLength);
    }
    if !good_axis(axis) {
        return Err(Refusal::BadSetting(0));
    }
    checking::checked9(flags, parts, masses, fills, carry, s)
}
