// A wall taken out.
ghost use Rattle.std.specs.Prelude.{false};
ghost use Rattle.grid.specs.State.{lent};
ghost use Rattle.host.specs.Given.{sides_of};
ghost use Rattle.hostschemes.specs.Promise.{WallTold};

use grid::Sides;
use host::answers::{number_of, place_of};
use walls::changes;

// The wall in a cell is asked to be taken out, by one of two schemes on one map.
#[unsafe(no_mangle)]
pub extern "C" fn skw_wall_remove(
    map: &mut [u8],
    flags: &[u8],
    parts: &[i32],
    masses: &[i32],
    fills: &[u32],
    carry: &[i64],
    flags2: &[u8],
    parts2: &[i32],
    masses2: &[i32],
    fills2: &[u32],
    carry2: &[i64],
    nx: usize,
    ny: usize,
    nz: usize,
    cell: usize,
    place: &mut usize,
) -> u8
    ensures { WallTold false (sides_of nx ny nz) cell map.old (lent flags.now parts.now masses.now fills.now carry.now) (lent flags2.now parts2.now masses2.now fills2.now carry2.now) result place.new map.new }
{
    let s = Sides { nx, ny, nz };
    let a = changes::wall_remove(
        map, flags, parts, masses, fills, carry, flags2, parts2, masses2, fills2, carry2, s, cell,
    );
    *place = place_of(a);
    number_of(a)
}
