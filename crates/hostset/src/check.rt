// The check.
ghost use Rattle.grid.specs.State.{lent};
ghost use Rattle.host.specs.Given.{sides_of};
ghost use Rattle.hostset.specs.Promise.{CheckTold};

use grid::Sides;
use host::answers::{number_of, place_of};
use pumps::entry;

// The check of one lent set, poured and taken with it.
#[unsafe(no_mangle)]
pub extern "C" fn skw_check(
    flags: &[u8],
    parts: &[i32],
    masses: &[i32],
    fills: &[u32],
    carry: &[i64],
    nx: usize,
    ny: usize,
    nz: usize,
    place: &mut usize,
) -> u8
    ensures { CheckTold (sides_of nx ny nz) (lent flags.now parts.now masses.now fills.now carry.now) result place.new }
{
    let s = Sides { nx, ny, nz };
    let a = entry::check(flags, parts, masses, fills, carry, s);
    *place = place_of(a);
    number_of(a)
}
