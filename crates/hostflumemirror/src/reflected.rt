// The flume's mirror.
ghost use Rattle.grid.specs.State.{lent};
ghost use Rattle.hostflumemirror.specs.Promise.{FlumeMirrorTold};

use flume::FlumeSides;
use flumemirroring::turning;
use host::answers::{number_of, place_of};

// The first set reflected in an axis, 0 x, 2 z, into the second.
#[unsafe(no_mangle)]
pub extern "C" fn skw_flume_mirror(
    flags: &[u8],
    parts: &[i32],
    masses: &[i32],
    fills: &[u32],
    carry: &[i64],
    flags2: &mut [u8],
    parts2: &mut [i32],
    masses2: &mut [i32],
    fills2: &mut [u32],
    carry2: &mut [i64],
    nx: usize,
    nz: usize,
    axis: usize,
    place: &mut usize,
) -> u8
    ensures { FlumeMirrorTold (record { nx = nx; nz = nz }) axis (lent flags.now parts.now masses.now fills.now carry.now) (lent flags2.old parts2.old masses2.old fills2.old carry2.old) result place.new (lent flags2.new parts2.new masses2.new fills2.new carry2.new) }
{
    let s = FlumeSides { nx, nz };
    let a = turning::mirrored(
        flags, parts, masses, fills, carry, flags2, parts2, masses2, fills2, carry2, axis, s,
    );
    *place = place_of(a);
    number_of(a)
}
