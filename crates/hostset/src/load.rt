// Loading.
ghost use Rattle.grid.specs.State.{lent};
ghost use Rattle.index.specs.Index.{index};
ghost use Rattle.index.specs.Held.{held};
ghost use Rattle.host.specs.Given.{sides_of};
ghost use Rattle.hostset.specs.Promise.{LoadTold};

use grid::Sides;
use host::answers::{number_of, place_of};
use index::loading;

// The check of one lent set, and then of its index.
#[unsafe(no_mangle)]
pub extern "C" fn skw_load(
    flags: &[u8],
    parts: &[i32],
    masses: &[i32],
    fills: &[u32],
    carry: &[i64],
    words: &[u64],
    count: &[u64],
    nx: usize,
    ny: usize,
    nz: usize,
    place: &mut usize,
) -> u8
    ensures { LoadTold (sides_of nx ny nz) (held (lent flags.now parts.now masses.now fills.now carry.now) (index words.now count.now)) result place.new }
{
    let s = Sides { nx, ny, nz };
    let a = loading::load(flags, parts, masses, fills, carry, words, count, s);
    *place = place_of(a);
    number_of(a)
}
