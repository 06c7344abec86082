// A flume's set reflected in an axis into a second set.
ghost use Rattle.grid.specs.State.{lent};
ghost use Rattle.flumemirroring.specs.Promise.{FlumeMirrored};

use crate::{entry, reflection};
use flume::FlumeSides;
use grid::Sides;
use grid::refusals::Answer;
use mirroring::turning;

// The first set reflected in an axis, 0 x, 2 z, into the second: the box's pass over its one layer of cells.
pub fn mirrored(
    flags: &[u8],
    parts: &[i32],
    masses: &[i32],
    fills: &[u32],
    carry: &[i64],
    flags2: &mut [u8],
    parts2: &mut [i32],
    masses2: &mut [i32],
    fills2: &mut [u32],
    carry2: &mut [i64],
    axis: usize,
    s: FlumeSides,
) -> Answer
    ensures { FlumeMirrored s axis (lent flags.now parts.now masses.now fills.now carry.now) (lent flags2.old parts2.old masses2.old fills2.old carry2.old) result (lent flags2.new parts2.new masses2.new fills2.new carry2.new) }
{
    entry::entered(
        flags, parts, masses, fills, carry, flags2, parts2, masses2, fills2, carry2, axis, s,
    )?;
    let dirs = reflection::directions9(axis);
    let layer = Sides {
        nx: s.nx,
        ny: 1,
        nz: s.nz,
    };
    turning::turn(
        flags, parts, masses, fills, flags2, parts2, masses2, fills2, &dirs, 8, axis, layer,
    );
    carry2.copy_from_slice(carry);
    Ok(())
}
