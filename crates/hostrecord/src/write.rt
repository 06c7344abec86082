// The writer.
ghost use Rattle.grid.specs.State.{lent};
ghost use Rattle.host.specs.Given.{sides_of, settings_of};
ghost use Rattle.hostrecord.specs.Promise.{site_of, WriteTold};

use grid::Sides;
use lattice::Settings;
use record::Site;
use writing::writer;

// The record of a grid, from the front of the room.
#[unsafe(no_mangle)]
pub extern "C" fn skw_write(
    nx: usize,
    ny: usize,
    nz: usize,
    p: i64,
    gx: i64,
    gy: i64,
    gz: i64,
    edge: i64,
    ox: i64,
    oy: i64,
    oz: i64,
    flags: &[u8],
    parts: &[i32],
    masses: &[i32],
    fills: &[u32],
    carry: &[i64],
    room: &mut [u8],
    bytes: &mut usize,
    place: &mut usize,
) -> u8
    ensures { WriteTold (sides_of nx ny nz) (settings_of p gx gy gz) (site_of edge ox oy oz) (lent flags.now parts.now masses.now fills.now carry.now) room.old result place.new bytes.new room.new }
{
    let s = Sides { nx, ny, nz };
    let g = Settings {
        p,
        gx,
        gy,
        gz,
        turbulent: false,
    };
    let t = Site {
        edge,
        x: ox,
        y: oy,
        z: oz,
    };
    match writer::write(s, g, t, flags, parts, masses, fills, carry, room) {
        Ok(long) => {
            *bytes = long;
            *place = 0;
            0
        }
        Err(refusal) => {
            *bytes = 0;
            *place = refusal.place();
            refusal.number()
        }
    }
}
