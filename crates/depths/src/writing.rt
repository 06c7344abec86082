// The writer of a depth map.
ghost use Rattle.std.specs.Prelude.{◌≡◌, ◌&&◌};
ghost use Rattle.lattice.specs.Cell.{edge_good, coordinate_good};
ghost use Rattle.grid.specs.Grid.{sides_good, cells_of};
ghost use Rattle.grid.specs.Answer.{Done};
ghost use Rattle.grid.specs.declared.refusals.Refusal.TheVariants.{BadSides, BadLength, BadSetting};
ghost use Rattle.grid.specs.State.{lent};
ghost use Rattle.grid.specs.Outcome.{or_refuse};
ghost use Rattle.pumps.specs.Three.{three_lengths, three_good};
ghost use Rattle.depths.specs.Outcome.{corner_good, Wrote};

use crate::Corner;
use crate::long::map_length;
use crate::put::put_map;
use grid::Sides;
use grid::extent::{cells, good_sides};
use grid::refusals::{Answer, Refusal};
use pumps::entry::{checked, three_lengths};

fn good_edge(edge: i64) -> bool
    ensures { result ≡ edge_good edge }
{
    (1 <= edge) & (edge <= 1000)
}

fn good_coordinate(a: i64) -> bool
    ensures { result ≡ coordinate_good a }
{
    (-10000000000 <= a) & (a <= 10000000000)
}

// Test 3 of a map.
fn good_corner(t: Corner) -> bool
    ensures { result ≡ corner_good t }
{
    good_edge(t.edge) & good_coordinate(t.x) & good_coordinate(t.y)
}

// Tests 1 to 6 of a grid whose map is to be written.
fn fit(
    s: Sides,
    t: Corner,
    flags: &[u8],
    parts: &[i32],
    masses: &[i32],
    fills: &[u32],
    carry: &[i64],
) -> Answer
    ensures { result ≡ or_refuse (sides_good s) BadSides (or_refuse (three_lengths (cells_of s) (lent flags.now parts.now masses.now fills.now carry.now)) BadLength (or_refuse (corner_good t) (BadSetting 0) (three_good s (lent flags.now parts.now masses.now fills.now carry.now) Done))) }
{
    if !good_sides(s) {
        return Err(Refusal::BadSides);
    }
    let n = cells(s);
    if !three_lengths(
        flags.len(),
        parts.len(),
        masses.len(),
        fills.len(),
        carry.len(),
        n,
    ) {
        return Err(Refusal::BadLength);
    }
    if !good_corner(t) {
        return Err(Refusal::BadSetting(0));
    }
    checked(flags, parts, masses, fills, carry, s)
}

// Writes the depth map of a grid from the front of the room; room past it stays as it was.
pub fn write(
    s: Sides,
    t: Corner,
    flags: &[u8],
    parts: &[i32],
    masses: &[i32],
    fills: &[u32],
    carry: &[i64],
    room: &mut [u8],
) -> Result<usize, Refusal>
    ensures { Wrote s t (lent flags.now parts.now masses.now fills.now carry.now) room.old result room.new }
{
    fit(s, t, flags, parts, masses, fills, carry)?;
    let long = map_length(s, t, flags, fills);
    if room.len() < long {
        return Err(Refusal::BadRoom(long));
    }
    put_map(room, s, t, flags, fills);
    Ok(long)
}
