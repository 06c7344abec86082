// The step.
ghost use Rattle.grid.specs.State.{lent};
ghost use Rattle.index.specs.Index.{index};
ghost use Rattle.index.specs.Held.{held};
ghost use Rattle.host.specs.Given.{sides_of, settings_in};
ghost use Rattle.hoststep.specs.Promise.{StepTold};

use grid::Sides;
use host::answers::{number_of, place_of};
use lattice::Settings;
use steps::stepping;

// One step from the first set to the second, each with its index.
#[unsafe(no_mangle)]
pub extern "C" fn skw_step(
    flags: &[u8],
    parts: &[i32],
    masses: &[i32],
    fills: &[u32],
    carry: &[i64],
    words: &[u64],
    count: &[u64],
    flags2: &mut [u8],
    parts2: &mut [i32],
    masses2: &mut [i32],
    fills2: &mut [u32],
    carry2: &mut [i64],
    words2: &mut [u64],
    count2: &mut [u64],
    marks: &mut [u8],
    nx: usize,
    ny: usize,
    nz: usize,
    p: i64,
    gx: i64,
    gy: i64,
    gz: i64,
    turbulent: bool,
    place: &mut usize,
) -> u8
    ensures { StepTold (sides_of nx ny nz) (settings_in turbulent p gx gy gz) (held (lent flags.now parts.now masses.now fills.now carry.now) (index words.now count.now)) (held (lent flags2.old parts2.old masses2.old fills2.old carry2.old) (index words2.old count2.old)) marks.old result place.new (held (lent flags2.new parts2.new masses2.new fills2.new carry2.new) (index words2.new count2.new)) marks.new }
{
    let s = Sides { nx, ny, nz };
    let g = Settings {
        p,
        gx,
        gy,
        gz,
        turbulent,
    };
    let a = stepping::step(
        flags, parts, masses, fills, carry, words, count, flags2, parts2, masses2, fills2, carry2,
        words2, count2, marks, s, g,
    );
    *place = place_of(a);
    number_of(a)
}
