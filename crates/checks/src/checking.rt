// The check: tests 1, 2, 4, 5 and 6 of one lent set.
ghost use Rattle.std.specs.Prelude.{◌≡◌, true, [], ◌∷◌, ◌<◌, pos, length};
ghost use Rattle.lattice.specs.Lattice.{d3q19};
ghost use Rattle.grid.specs.Grid.{sides_good, cells_of, grid_of};
ghost use Rattle.grid.specs.State.{lent, state_of};
ghost use Rattle.grid.specs.Good.{cell_good, bad_rule};
ghost use Rattle.grid.specs.Outcome.{good_answer, check_answer};
ghost use Rattle.grid.specs.inner.Between.{Sized};

use crate::{fluid, layer};
use grid::refusals::{Answer, Refusal};
use grid::{Sides, cells, extent, kinds, lengths};
use lattice::{limits, rules};

// Whether cell c keeps test 6's rules.
fn good_cell(flags: &[u8], parts: &[i32], masses: &[i32], fills: &[u32], c: usize) -> bool
    requires { (c < length flags.now) × Sized (length flags.now) (lent flags.now parts.now masses.now fills.now (pos 0 ∷ [])) }
    ensures { result ≡ cell_good d3q19 (state_of 18 (lent flags.now parts.now masses.now fills.now (pos 0 ∷ []))) c }
{
    let f = flags[c];
    let v = cells::own(parts, c);
    if kinds::is_liquid(f) {
        return rules::good_liquid(f, v, masses[c], fills[c]);
    }
    rules::all_zero(v) & (masses[c] == 0) & (fills[c] == 0)
}

// Test 6, and test 8: the lowest cell that breaks a rule, N for the carry alone, N + 1 if nothing is broken.
pub fn first_bad(flags: &[u8], parts: &[i32], masses: &[i32], fills: &[u32], carry: i64) -> usize
    requires { Sized (length flags.now) (lent flags.now parts.now masses.now fills.now (carry ∷ [])) }
    ensures { result ≡ bad_rule d3q19 (length flags.now) (state_of 18 (lent flags.now parts.now masses.now fills.now (carry ∷ []))) }
{
    let n = flags.len();
    for c in 0..n {
        if !good_cell(flags, parts, masses, fills, c) {
            return c;
        }
    }
    if limits::fair_carry(carry) {
        return n + 1;
    }
    n
}

// Tests 4 to 6 of a set whose sides and lengths are good.
pub fn checked(
    flags: &[u8],
    parts: &[i32],
    masses: &[i32],
    fills: &[u32],
    carry: &[i64],
    s: Sides,
) -> Answer
    requires { (sides_good s ≡ true) × Sized (cells_of s) (lent flags.now parts.now masses.now fills.now carry.now) }
    ensures { result ≡ good_answer d3q19 (grid_of s) (state_of 18 (lent flags.now parts.now masses.now fills.now carry.now)) (Ok tt) }
{
    let n = flags.len();
    let flagged = layer::first_bad_flag(flags, s);
    if flagged < n {
        return Err(Refusal::BadFlag(flagged));
    }
    let opened = fluid::first_open(flags, s);
    if opened < n {
        return Err(Refusal::BadLayer(opened));
    }
    let broken = first_bad(flags, parts, masses, fills, carry[0]);
    if broken <= n {
        return Err(Refusal::BadState(broken));
    }
    Ok(())
}

// The check of one lent set: what is refused, and where.
pub fn check(
    flags: &[u8],
    parts: &[i32],
    masses: &[i32],
    fills: &[u32],
    carry: &[i64],
    s: Sides,
) -> Answer
    ensures { result ≡ check_answer s (lent flags.now parts.now masses.now fills.now carry.now) }
{
    if !extent::good_sides(s) {
        return Err(Refusal::BadSides);
    }
    let n = extent::cells(s);
    if !lengths::good_lengths(
        flags.len(),
        parts.len(),
        masses.len(),
        fills.len(),
        carry.len(),
        n,
    ) {
        return Err(Refusal::BadLength);
    }
    checked(flags, parts, masses, fills, carry, s)
}
