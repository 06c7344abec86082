// A set reflected in an axis into a second set.
ghost use Rattle.std.specs.Prelude.{◌≡◌, []};
ghost use Rattle.grid.specs.State.{Lent, lent};
ghost use Rattle.index.specs.Index.{index};
ghost use Rattle.index.specs.Held.{held};
ghost use Rattle.grid.specs.Grid.{cells_of};
ghost use Rattle.mirroring.specs.Turned.{turned_set};
ghost use Rattle.mirroring.specs.Promise.{Mirrored};
ghost use Rattle.mirroring.specs.inner.Between.{Turnable, table_mirror};

use crate::{entry, reflection};
use grid::Sides;
use grid::refusals::Answer;
use index::keeping;

// Every cell of the second set from the cell of the first that is reflected to it; totals aside. Of the box and of the flume: a cell has q + 1 parts, and
// the table has where each direction is reflected.
pub fn turn(
    flags: &[u8],
    parts: &[i32],
    masses: &[i32],
    fills: &[u32],
    flags2: &mut [u8],
    parts2: &mut [i32],
    masses2: &mut [i32],
    fills2: &mut [u32],
    dirs: &[usize; 19],
    q: usize,
    axis: usize,
    s: Sides,
)
    requires { Turnable s q dirs.now (lent flags.now parts.now masses.now fills.now []) (lent flags2.old parts2.old masses2.old fills2.old []) }
    ensures { ◌≡◌ {A = Lent} (lent flags2.new parts2.new masses2.new fills2.new []) (turned_set (table_mirror s axis dirs.now) q (cells_of s) (lent flags.now parts.now masses.now fills.now [])) }
{
    let width = q + 1;
    for c in 0..flags.len() {
        let m = reflection::cell_in(c, axis, s);
        flags2[c] = flags[m];
        masses2[c] = masses[m];
        fills2[c] = fills[m];
        reflection::fetch(parts, width * m, parts2, width * c, width, dirs);
    }
}

// The first set reflected in an axis, 0 x, 1 y, 2 z, into the second, with the index that its flags make.
pub fn mirrored(
    flags: &[u8],
    parts: &[i32],
    masses: &[i32],
    fills: &[u32],
    carry: &[i64],
    flags2: &mut [u8],
    parts2: &mut [i32],
    masses2: &mut [i32],
    fills2: &mut [u32],
    carry2: &mut [i64],
    words2: &mut [u64],
    count2: &mut [u64],
    axis: usize,
    s: Sides,
) -> Answer
    ensures { Mirrored s axis (lent flags.now parts.now masses.now fills.now carry.now) (held (lent flags2.old parts2.old masses2.old fills2.old carry2.old) (index words2.old count2.old)) result (held (lent flags2.new parts2.new masses2.new fills2.new carry2.new) (index words2.new count2.new)) }
{
    entry::entered(
        flags, parts, masses, fills, carry, flags2, parts2, masses2, fills2, carry2, words2,
        count2, axis, s,
    )?;
    let dirs = reflection::directions(axis);
    turn(
        flags, parts, masses, fills, flags2, parts2, masses2, fills2, &dirs, 18, axis, s,
    );
    carry2.copy_from_slice(carry);
    keeping::make(flags2, words2, count2);
    Ok(())
}
