// The run.
ghost use Rattle.grid.specs.State.{lent};
ghost use Rattle.index.specs.Index.{index};
ghost use Rattle.index.specs.Held.{held};
ghost use Rattle.host.specs.Given.{sides_of, settings_in};
ghost use Rattle.hoststep.specs.Promise.{RunTold};

use grid::Sides;
use host::answers::{number_of, place_of};
use lattice::Settings;
use runs::running;

// At most `steps` steps between the two sets, each with its index; how many were made.
#[unsafe(no_mangle)]
pub extern "C" fn skw_run(
    steps: usize,
    flags: &mut [u8],
    parts: &mut [i32],
    masses: &mut [i32],
    fills: &mut [u32],
    carry: &mut [i64],
    words: &mut [u64],
    count: &mut [u64],
    flags2: &mut [u8],
    parts2: &mut [i32],
    masses2: &mut [i32],
    fills2: &mut [u32],
    carry2: &mut [i64],
    words2: &mut [u64],
    count2: &mut [u64],
    marks: &mut [u8],
    nx: usize,
    ny: usize,
    nz: usize,
    p: i64,
    gx: i64,
    gy: i64,
    gz: i64,
    turbulent: bool,
    number: &mut u8,
    place: &mut usize,
) -> usize
    ensures { RunTold steps (sides_of nx ny nz) (settings_in turbulent p gx gy gz) (held (lent flags.old parts.old masses.old fills.old carry.old) (index words.old count.old)) (held (lent flags2.old parts2.old masses2.old fills2.old carry2.old) (index words2.old count2.old)) marks.old result number.new place.new (held (lent flags.new parts.new masses.new fills.new carry.new) (index words.new count.new)) (held (lent flags2.new parts2.new masses2.new fills2.new carry2.new) (index words2.new count2.new)) marks.new }
{
    let s = Sides { nx, ny, nz };
    let g = Settings {
        p,
        gx,
        gy,
        gz,
        turbulent,
    };
    let ran = running::run(
        steps, flags, parts, masses, fills, carry, words, count, flags2, parts2, masses2, fills2,
        carry2, words2, count2, marks, s, g,
    );
    let a = ran.answer;
    *number = number_of(a);
    *place = place_of(a);
    ran.count
}
