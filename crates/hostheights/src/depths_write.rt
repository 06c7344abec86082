// The depth map's writer.
ghost use Rattle.grid.specs.State.{lent};
ghost use Rattle.host.specs.Given.{sides_of};
ghost use Rattle.hostheights.specs.Depths.{corner_of, DepthsTold};

use depths::{Corner, writing};
use grid::Sides;

// The depth map of a grid, from the front of the room.
#[unsafe(no_mangle)]
pub extern "C" fn skw_depths_write(
    nx: usize,
    ny: usize,
    nz: usize,
    edge: i64,
    ox: i64,
    oy: i64,
    flags: &[u8],
    parts: &[i32],
    masses: &[i32],
    fills: &[u32],
    carry: &[i64],
    room: &mut [u8],
    bytes: &mut usize,
    place: &mut usize,
) -> u8
    ensures { DepthsTold (sides_of nx ny nz) (corner_of edge ox oy) (lent flags.now parts.now masses.now fills.now carry.now) room.old result place.new bytes.new room.new }
{
    let s = Sides { nx, ny, nz };
    let t = Corner { edge, x: ox, y: oy };
    match writing::write(s, t, flags, parts, masses, fills, carry, room) {
        Ok(long) => {
            *bytes = long;
            *place = 0;
            0
        }
        Err(refusal) => {
            *bytes = 0;
            *place = refusal.place();
            refusal.number()
        }
    }
}
