// Pour.
ghost use Rattle.std.specs.Prelude.{true};
ghost use Rattle.grid.specs.State.{lent};
ghost use Rattle.host.specs.Given.{sides_of};
ghost use Rattle.hostset.specs.Promise.{ActDone};

use acts::answers::{acted_moved, acted_number, acted_place};
use grid::Sides;

// An amount is poured into an interface cell.
#[unsafe(no_mangle)]
pub extern "C" fn skw_pour(
    flags: &[u8],
    parts: &[i32],
    masses: &mut [i32],
    fills: &mut [u32],
    carry: &mut [i64],
    nx: usize,
    ny: usize,
    nz: usize,
    cell: usize,
    amount: i64,
    moved: &mut i64,
    place: &mut usize,
) -> u8
    ensures { ActDone true (sides_of nx ny nz) cell amount (lent flags.now parts.now masses.old fills.old carry.old) result place.new moved.new (lent flags.now parts.now masses.new fills.new carry.new) }
{
    let s = Sides { nx, ny, nz };
    let a = acts::pour(flags, parts, masses, fills, carry, s, cell, amount);
    let m = acted_moved(a);
    *moved = m;
    *place = acted_place(a);
    acted_number(a)
}
