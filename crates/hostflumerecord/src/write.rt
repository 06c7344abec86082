// The writer.
ghost use Rattle.grid.specs.State.{lent};
ghost use Rattle.hostflumerecord.specs.Promise.{flume_sides_of, flume_settings_of, flume_site_of, FlumeWriteTold};

use flume::{FlumeSettings, FlumeSides};
use flumerecord::FlumeSite;
use flumewriting::writer;

// The record of a flume, from the front of the room.
#[unsafe(no_mangle)]
pub extern "C" fn skw_flume_write(
    nx: usize,
    nz: usize,
    p: i64,
    gx: i64,
    gz: i64,
    edge: i64,
    ox: i64,
    oz: i64,
    flags: &[u8],
    parts: &[i32],
    masses: &[i32],
    fills: &[u32],
    carry: &[i64],
    room: &mut [u8],
    bytes: &mut usize,
    place: &mut usize,
) -> u8
    ensures { FlumeWriteTold (flume_sides_of nx nz) (flume_settings_of p gx gz) (flume_site_of edge ox oz) (lent flags.now parts.now masses.now fills.now carry.now) room.old result place.new bytes.new room.new }
{
    let s = FlumeSides { nx, nz };
    let g = FlumeSettings {
        p,
        gx,
        gz,
        turbulent: false,
    };
    let t = FlumeSite { edge, x: ox, z: oz };
    match writer::write(s, g, t, flags, parts, masses, fills, carry, room) {
        Ok(long) => {
            *bytes = long;
            *place = 0;
            0
        }
        Err(refusal) => {
            *bytes = 0;
            *place = refusal.place();
            refusal.number()
        }
    }
}
