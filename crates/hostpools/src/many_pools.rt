// One pool or three?
ghost use Rattle.grid.specs.State.{lent};
ghost use Rattle.pools.specs.Outcome.{room};
ghost use Rattle.hostpools.specs.Pools.{PoolsTold};
ghost use Rattle.host.specs.Given.{sides_of};

use grid::Sides;
use tally::{answers, asking};

// The pools of one lent set: how many, each one's cells and water, and the mark of each cell.
#[unsafe(no_mangle)]
pub extern "C" fn skw_pools(
    flags: &[u8],
    parts: &[i32],
    masses: &[i32],
    fills: &[u32],
    carry: &[i64],
    counts: &mut [u32],
    waters: &mut [i64],
    marks: &mut [u16],
    work: &mut [u32],
    nx: usize,
    ny: usize,
    nz: usize,
    pools: &mut usize,
    place: &mut usize,
) -> u8
    ensures { PoolsTold (sides_of nx ny nz) (lent flags.now parts.now masses.now fills.now carry.now) (room marks.old work.old counts.old waters.old) result place.new pools.new (room marks.new work.new counts.new waters.new) }
{
    let s = Sides { nx, ny, nz };
    let a = asking::pools(
        flags, parts, masses, fills, carry, marks, work, counts, waters, s,
    );
    *pools = answers::pools(a);
    *place = answers::place(a);
    answers::number(a)
}
