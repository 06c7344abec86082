// The map's walls: one asked for, or one taken out, by either of two schemes.
ghost use Rattle.std.specs.Prelude.{◌≡◌, true, false, ◌<◌, length};
ghost use Rattle.grid.specs.Answer.{Done};
ghost use Rattle.grid.specs.Grid.{sides_good, cells_of};
ghost use Rattle.grid.specs.State.{lent};
ghost use Rattle.grid.specs.inner.Passes.{Inner};
ghost use Rattle.walls.specs.Outcome.{wanted, in_way, placed, wall_answer};
ghost use Rattle.walls.specs.Promise.{Changed};

use grid::refusals::{Answer, Refusal};
use grid::{Sides, neighbours};
use schemes::testing;

// The map's byte that is asked for.
fn wanted_byte(add: bool) -> u8
    ensures { result ≡ wanted add }
{
    if add {
        return 1;
    }
    0
}

// Tests 13 and 17: a cell of the grid, inner, and not already as asked.
fn placing(map: &[u8], s: Sides, c: usize, add: bool) -> Answer
    requires { (sides_good s ≡ true) × (length map.now ≡ cells_of s) }
    ensures { result ≡ placed s map.now add c Done }
{
    if c >= map.len() {
        return Err(Refusal::Outside);
    }
    if testing::outer(c, s) {
        return Err(Refusal::BadChange(c));
    }
    if map[c] == wanted_byte(add) {
        return Err(Refusal::BadChange(c));
    }
    Ok(())
}

// Whether a scheme's water is in the way: of a wall in the cell itself, of taking one out beside it.
fn in_way(own: &[u8], s: Sides, c: usize, add: bool) -> bool
    requires { (sides_good s ≡ true) × (length own.now ≡ cells_of s) × (c < cells_of s) × Inner s c }
    ensures { result ≡ in_way s own.now add c }
{
    if add {
        return own[c] != 0;
    }
    let off = neighbours::offsets(s);
    let low = neighbours::low_of(s);
    neighbours::beside(own, &off, c - low, 2)
}

// The answer to a change: the asker's tests, the other's, 13, 17 and 18. It writes nothing.
fn answered(
    map: &[u8],
    own: &[u8],
    parts: &[i32],
    masses: &[i32],
    fills: &[u32],
    carry: &[i64],
    own2: &[u8],
    parts2: &[i32],
    masses2: &[i32],
    fills2: &[u32],
    carry2: &[i64],
    s: Sides,
    c: usize,
    add: bool,
) -> Answer
    ensures { result ≡ wall_answer s map.now (lent own.now parts.now masses.now fills.now carry.now) (lent own2.now parts2.now masses2.now fills2.now carry2.now) add c }
{
    testing::entered(map, own, parts, masses, fills, carry, true, s)?;
    testing::entered(map, own2, parts2, masses2, fills2, carry2, true, s)?;
    placing(map, s, c, add)?;
    if in_way(own, s, c, add) | in_way(own2, s, c, add) {
        return Err(Refusal::InTheWay(c));
    }
    Ok(())
}

// A wall is asked for in cell c.
pub fn wall_add(
    map: &mut [u8],
    own: &[u8],
    parts: &[i32],
    masses: &[i32],
    fills: &[u32],
    carry: &[i64],
    own2: &[u8],
    parts2: &[i32],
    masses2: &[i32],
    fills2: &[u32],
    carry2: &[i64],
    s: Sides,
    c: usize,
) -> Answer
    ensures { Changed s map.old (lent own.now parts.now masses.now fills.now carry.now) (lent own2.now parts2.now masses2.now fills2.now carry2.now) true c result map.new }
{
    answered(
        map, own, parts, masses, fills, carry, own2, parts2, masses2, fills2, carry2, s, c, true,
    )?;
    map[c] = 1;
    Ok(())
}

// The wall in cell c is asked to be taken out.
pub fn wall_remove(
    map: &mut [u8],
    own: &[u8],
    parts: &[i32],
    masses: &[i32],
    fills: &[u32],
    carry: &[i64],
    own2: &[u8],
    parts2: &[i32],
    masses2: &[i32],
    fills2: &[u32],
    carry2: &[i64],
    s: Sides,
    c: usize,
) -> Answer
    ensures { Changed s map.old (lent own.now parts.now masses.now fills.now carry.now) (lent own2.now parts2.now masses2.now fills2.now carry2.now) false c result map.new }
{
    answered(
        map, own, parts, masses, fills, carry, own2, parts2, masses2, fills2, carry2, s, c, false,
    )?;
    map[c] = 0;
    Ok(())
}
