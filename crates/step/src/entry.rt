// Tests 1 to 6 of what a step is lent.
ghost use Rattle.std.specs.Prelude.{◌≡◌};
ghost use Rattle.grid.specs.State.{lent};
ghost use Rattle.grid.specs.Outcome.{entry_answer};

use checks::checking;
use grid::refusals::{Answer, Refusal};
use grid::{Sides, extent, lengths};
use lattice::{Settings, limits};

// What a step is refused for before it begins.
pub fn entered(
    flags: &[u8],
    parts: &[i32],
    masses: &[i32],
    fills: &[u32],
    carry: &[i64],
    flags2: &[u8],
    parts2: &[i32],
    masses2: &[i32],
    fills2: &[u32],
    carry2: &[i64],
    marks: &[u8],
    s: Sides,
    g: Settings,
) -> Answer
    ensures { result ≡ entry_answer s g (lent flags.now parts.now masses.now fills.now carry.now) (lent flags2.now parts2.now masses2.now fills2.now carry2.now) marks.now (Ok tt) }
{
    if !extent::good_sides(s) {
        return Err(Refusal::BadSides);
    }
    let n = extent::cells(s);
    let first = lengths::good_lengths(
        flags.len(),
        parts.len(),
        masses.len(),
        fills.len(),
        carry.len(),
        n,
    );
    let second = lengths::good_lengths(
        flags2.len(),
        parts2.len(),
        masses2.len(),
        fills2.len(),
        carry2.len(),
        n,
    );
    if !(first & second & (marks.len() == n)) {
        return Err(Refusal::BadLength);
    }
    if !limits::good_settings(g) {
        return Err(Refusal::BadSetting(0));
    }
    checking::checked(flags, parts, masses, fills, carry, s)
}
