// Part.
ghost use Rattle.host.specs.Given.{sides_of};
ghost use Rattle.hostschemes.specs.Promise.{PartTold};

use grid::Sides;
use host::answers::{number_of, place_of};
use joins::joining;

// A scheme's own flags out of the flags of its grid.
#[unsafe(no_mangle)]
pub extern "C" fn skw_scheme_part(
    grid: &[u8],
    flags: &mut [u8],
    nx: usize,
    ny: usize,
    nz: usize,
    place: &mut usize,
) -> u8
    ensures { PartTold (sides_of nx ny nz) grid.now flags.old result place.new flags.new }
{
    let s = Sides { nx, ny, nz };
    let a = joining::part(grid, flags, s);
    *place = place_of(a);
    number_of(a)
}
