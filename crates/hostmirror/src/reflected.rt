// The mirror.
ghost use Rattle.grid.specs.State.{lent};
ghost use Rattle.index.specs.Index.{index};
ghost use Rattle.index.specs.Held.{held};
ghost use Rattle.host.specs.Given.{sides_of};
ghost use Rattle.hostmirror.specs.Promise.{MirrorTold};

use grid::Sides;
use host::answers::{number_of, place_of};
use mirroring::turning;

// The first set reflected in an axis, 0 x, 1 y, 2 z, into the second, with its index.
#[unsafe(no_mangle)]
pub extern "C" fn skw_mirror(
    flags: &[u8],
    parts: &[i32],
    masses: &[i32],
    fills: &[u32],
    carry: &[i64],
    flags2: &mut [u8],
    parts2: &mut [i32],
    masses2: &mut [i32],
    fills2: &mut [u32],
    carry2: &mut [i64],
    words2: &mut [u64],
    count2: &mut [u64],
    nx: usize,
    ny: usize,
    nz: usize,
    axis: usize,
    place: &mut usize,
) -> u8
    ensures { MirrorTold (sides_of nx ny nz) axis (lent flags.now parts.now masses.now fills.now carry.now) (held (lent flags2.old parts2.old masses2.old fills2.old carry2.old) (index words2.old count2.old)) result place.new (held (lent flags2.new parts2.new masses2.new fills2.new carry2.new) (index words2.new count2.new)) }
{
    let s = Sides { nx, ny, nz };
    let a = turning::mirrored(
        flags, parts, masses, fills, carry, flags2, parts2, masses2, fills2, carry2, words2,
        count2, axis, s,
    );
    *place = place_of(a);
    number_of(a)
}
