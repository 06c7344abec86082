// Join.
ghost use Rattle.grid.specs.State.{lent};
ghost use Rattle.host.specs.Given.{sides_of};
ghost use Rattle.hostschemes.specs.Promise.{JoinTold};

use grid::Sides;
use host::answers::{number_of, place_of};
use joins::joining;

// The flags of the grid that a scheme makes with the wall map.
#[unsafe(no_mangle)]
pub extern "C" fn skw_scheme_join(
    map: &[u8],
    flags: &[u8],
    parts: &[i32],
    masses: &[i32],
    fills: &[u32],
    carry: &[i64],
    grid: &mut [u8],
    nx: usize,
    ny: usize,
    nz: usize,
    place: &mut usize,
) -> u8
    ensures { JoinTold (sides_of nx ny nz) map.now (lent flags.now parts.now masses.now fills.now carry.now) grid.old result place.new grid.new }
{
    let s = Sides { nx, ny, nz };
    let a = joining::join(map, flags, parts, masses, fills, carry, grid, s);
    *place = place_of(a);
    number_of(a)
}
