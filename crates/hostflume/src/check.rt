// The check.
ghost use Rattle.grid.specs.State.{lent};
ghost use Rattle.hostflume.specs.Promise.{flume_sides_of, CheckTold};

use flume::FlumeSides;
use flumegrid::checking;
use host::answers::{number_of, place_of};

// The check of one lent set.
#[unsafe(no_mangle)]
pub extern "C" fn skw_flume_check(
    flags: &[u8],
    parts: &[i32],
    masses: &[i32],
    fills: &[u32],
    carry: &[i64],
    nx: usize,
    nz: usize,
    place: &mut usize,
) -> u8
    ensures { CheckTold (flume_sides_of nx nz) (lent flags.now parts.now masses.now fills.now carry.now) result place.new }
{
    let s = FlumeSides { nx, nz };
    let a = checking::check(flags, parts, masses, fills, carry, s);
    *place = place_of(a);
    number_of(a)
}
