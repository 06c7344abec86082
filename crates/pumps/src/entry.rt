// The check of a set whose carry slice holds three numbers: carry, poured, taken.
ghost use Rattle.std.specs.Prelude.{◌≡◌, true, ◌&&◌, ◌*◌, ◌≤◌, eqb};
ghost use Rattle.grid.specs.Grid.{sides_good, cells_of};
ghost use Rattle.grid.specs.State.{lent};
ghost use Rattle.pumps.specs.Three.{total_good, totals_good, three_lengths, three_good, three_answer};

use checks::checking;
use grid::refusals::{Answer, Refusal};
use grid::{Sides, extent};

fn good_total(t: i64) -> bool
    ensures { result ≡ total_good t }
{
    (0 <= t) & (t <= 1000000000000000)
}

// Test 6 of poured and taken.
pub fn good_totals(poured: i64, taken: i64) -> bool
    ensures { result ≡ totals_good poured taken }
{
    good_total(poured) & good_total(taken)
}

// Whether N flags, 19N parts, N masses, N fills and three numbers are lent.
pub fn three_lengths(
    flags: usize,
    parts: usize,
    masses: usize,
    fills: usize,
    carry: usize,
    n: usize,
) -> bool
    requires { n ≤ 262144 }
    ensures { result ≡ (eqb carry 3 && (eqb flags n && eqb parts (19 * n) && eqb masses n && eqb fills n)) }
{
    (carry == 3) & ((flags == n) & (parts == 19 * n) & (masses == n) & (fills == n))
}

// Tests 4 to 6 of a set whose sides and lengths are good; the base is lent the carry alone.
pub fn checked(
    flags: &[u8],
    parts: &[i32],
    masses: &[i32],
    fills: &[u32],
    carry: &[i64],
    s: Sides,
) -> Answer
    requires { (sides_good s ≡ true) × (three_lengths (cells_of s) (lent flags.now parts.now masses.now fills.now carry.now) ≡ true) }
    ensures { result ≡ three_good s (lent flags.now parts.now masses.now fills.now carry.now) (Ok tt) }
{
    checking::checked(flags, parts, masses, fills, &carry[..1], s)?;
    if !good_totals(carry[1], carry[2]) {
        return Err(Refusal::BadState(flags.len()));
    }
    Ok(())
}

// Tests 1, 2, 4, 5 and 6.
pub fn check(
    flags: &[u8],
    parts: &[i32],
    masses: &[i32],
    fills: &[u32],
    carry: &[i64],
    s: Sides,
) -> Answer
    ensures { result ≡ three_answer s (lent flags.now parts.now masses.now fills.now carry.now) }
{
    if !extent::good_sides(s) {
        return Err(Refusal::BadSides);
    }
    let n = extent::cells(s);
    if !three_lengths(
        flags.len(),
        parts.len(),
        masses.len(),
        fills.len(),
        carry.len(),
        n,
    ) {
        return Err(Refusal::BadLength);
    }
    checked(flags, parts, masses, fills, carry, s)
}
