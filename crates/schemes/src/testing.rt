// The tests of a scheme: 1, 2, 4, 5 and 6 of the map, the own flags and the grid that they make. No grid is written for it: test 4 looks at both bytes
// of a cell, test 5 at both bytes of its neighbours, and test 6 is the base's on the own flags, for empty cells and walls keep the same rules.
ghost use Rattle.std.specs.Prelude.{◌≡◌, true, not, ◌&&◌, ◌||◌, ◌<◌, leb, eqb, length};
ghost use Rattle.whole.specs.Fold.{first};
ghost use Rattle.grid.specs.Grid.{sides_good, cells_of, grid_of};
ghost use Rattle.grid.specs.State.{lent, flag_of};
ghost use Rattle.grid.specs.Good.{bad_fluid};
ghost use Rattle.pumps.specs.Three.{three_lengths};
ghost use Rattle.schemes.specs.Scheme.{joined_flags, bad_mark, wet_wall, bad_own, ruled, tested};
ghost use Rattle.schemes.specs.inner.Between.{Measured, Marked, Looking, empty_at, Within, opened};

use checks::checking;
use grid::refusals::{Answer, Refusal};
use grid::{Sides, extent, neighbours};
use pumps::entry;

// Whether cell c is in the outer layer.
pub fn outer(c: usize, s: Sides) -> bool
    requires { (sides_good s ≡ true) × (c < cells_of s) }
    ensures { result ≡ (grid_of s).outer c }
{
    let x = c % s.nx;
    let y = c / s.nx % s.ny;
    let z = c / (s.nx * s.ny);
    (x == 0) | (x + 1 == s.nx) | ((y == 0) | (y + 1 == s.ny)) | ((z == 0) | (z + 1 == s.nz))
}

// Whether the map's byte m is above 1, the own flag f above 2, or cell c outer and not wall in the map.
fn bad_mark(m: u8, f: u8, c: usize, s: Sides) -> bool
    requires { (sides_good s ≡ true) × (c < cells_of s) }
    ensures { result ≡ not (leb m 1 && leb f 2 && (not ((grid_of s).outer c) || eqb m 1)) }
{
    if m > 1 {
        return true;
    }
    if f > 2 {
        return true;
    }
    if m == 1 {
        return false;
    }
    outer(c, s)
}

// Test 4: the lowest such cell; N if there is none.
fn first_bad_mark(map: &[u8], own: &[u8], s: Sides) -> usize
    requires { Measured s map.now own.now }
    ensures { result ≡ bad_mark s map.now own.now }
{
    for c in 0..map.len() {
        if bad_mark(map[c], own[c], c, s) {
            return c;
        }
    }
    map.len()
}

// Whether a neighbour is empty in the grid: neither wall in the map nor liquid in the scheme; k is c - low.
fn empty_beside(map: &[u8], own: &[u8], off: &[usize; 19], k: usize) -> bool
    requires { Within map.now own.now off.now k }
    ensures { result ≡ empty_at map.now own.now off.now k }
{
    let mut found = false;
    for i in 1..19 {
        let d = k + off[i];
        found = found | (map[d] != 1) & (own[d] == 0);
    }
    found
}

// Whether cell c is fluid in the grid and has an empty neighbour.
fn open_at(map: &[u8], own: &[u8], off: &[usize; 19], low: usize, c: usize, s: Sides) -> bool
    requires { Looking s map.now own.now off.now low × (c < cells_of s) }
    ensures { result ≡ opened s map.now own.now c }
{
    if own[c] != 2 {
        return false;
    }
    if map[c] == 1 {
        return false;
    }
    empty_beside(map, own, off, c - low)
}

// Test 5: the lowest fluid cell of the grid that has an empty neighbour; N if there is none.
fn first_open(map: &[u8], own: &[u8], s: Sides) -> usize
    requires { Marked s map.now own.now }
    ensures { result ≡ bad_fluid 18 (grid_of s) (flag_of (joined_flags s map.now own.now)) }
{
    let off = neighbours::offsets(s);
    let low = neighbours::low_of(s);
    for c in 0..own.len() {
        if open_at(map, own, &off, low, c, s) {
            return c;
        }
    }
    own.len()
}

fn wet(m: u8, f: u8) -> bool
    ensures { result ≡ (eqb m 1 && not (eqb f 0)) }
{
    (m == 1) & (f != 0)
}

// The lowest wall whose own flag is not 0; N if there is none.
fn first_wet(map: &[u8], own: &[u8]) -> usize
    requires { length own.now ≡ length map.now }
    ensures { result ≡ first (length map.now) (wet_wall map.now own.now) }
{
    for c in 0..map.len() {
        if wet(map[c], own[c]) {
            return c;
        }
    }
    map.len()
}

// Test 6: the lowest cell that breaks a rule, or is a wall that is not dry; N for the carry alone, N + 1 if nothing is broken.
fn first_broken(
    map: &[u8],
    own: &[u8],
    parts: &[i32],
    masses: &[i32],
    fills: &[u32],
    carry: &[i64],
    s: Sides,
) -> usize
    requires { Measured s map.now own.now × (three_lengths (cells_of s) (lent own.now parts.now masses.now fills.now carry.now) ≡ true) }
    ensures { result ≡ bad_own s map.now (lent own.now parts.now masses.now fills.now carry.now) }
{
    let broken = checking::first_bad(own, parts, masses, fills, carry[0]);
    let wetted = first_wet(map, own);
    if wetted < own.len() {
        if wetted < broken {
            return wetted;
        }
    }
    broken
}

// Tests 4 to 6 of a scheme whose sides and lengths are good.
fn checked(
    map: &[u8],
    own: &[u8],
    parts: &[i32],
    masses: &[i32],
    fills: &[u32],
    carry: &[i64],
    s: Sides,
) -> Answer
    requires { Measured s map.now own.now × (three_lengths (cells_of s) (lent own.now parts.now masses.now fills.now carry.now) ≡ true) }
    ensures { result ≡ ruled s map.now (lent own.now parts.now masses.now fills.now carry.now) }
{
    let n = map.len();
    let marked = first_bad_mark(map, own, s);
    if marked < n {
        return Err(Refusal::BadFlag(marked));
    }
    let open = first_open(map, own, s);
    if open < n {
        return Err(Refusal::BadLayer(open));
    }
    let broken = first_broken(map, own, parts, masses, fills, carry, s);
    if broken <= n {
        return Err(Refusal::BadState(broken));
    }
    if !entry::good_totals(carry[1], carry[2]) {
        return Err(Refusal::BadState(n));
    }
    Ok(())
}

// The tests of a scheme; `more` is what the caller asks of further lengths.
pub fn entered(
    map: &[u8],
    own: &[u8],
    parts: &[i32],
    masses: &[i32],
    fills: &[u32],
    carry: &[i64],
    more: bool,
    s: Sides,
) -> Answer
    ensures { result ≡ tested s map.now (lent own.now parts.now masses.now fills.now carry.now) more }
{
    if !extent::good_sides(s) {
        return Err(Refusal::BadSides);
    }
    let n = extent::cells(s);
    let set = entry::three_lengths(
        own.len(),
        parts.len(),
        masses.len(),
        fills.len(),
        carry.len(),
        n,
    );
    if !(set & (map.len() == n) & more) {
        return Err(Refusal::BadLength);
    }
    checked(map, own, parts, masses, fills, carry, s)
}
