// The step.
ghost use Rattle.grid.specs.State.{lent};
ghost use Rattle.hostflume.specs.Promise.{flume_sides_of, flume_settings_in, StepTold};

use flume::{FlumeSettings, FlumeSides};
use flumestep::stepping;
use host::answers::{number_of, place_of};

// One step from the first set to the second.
#[unsafe(no_mangle)]
pub extern "C" fn skw_flume_step(
    flags: &[u8],
    parts: &[i32],
    masses: &[i32],
    fills: &[u32],
    carry: &[i64],
    flags2: &mut [u8],
    parts2: &mut [i32],
    masses2: &mut [i32],
    fills2: &mut [u32],
    carry2: &mut [i64],
    marks: &mut [u8],
    nx: usize,
    nz: usize,
    p: i64,
    gx: i64,
    gz: i64,
    turbulent: bool,
    place: &mut usize,
) -> u8
    ensures { StepTold (flume_sides_of nx nz) (flume_settings_in turbulent p gx gz) (lent flags.now parts.now masses.now fills.now carry.now) (lent flags2.old parts2.old masses2.old fills2.old carry2.old) marks.old result place.new (lent flags2.new parts2.new masses2.new fills2.new carry2.new) marks.new }
{
    let s = FlumeSides { nx, nz };
    let g = FlumeSettings {
        p,
        gx,
        gz,
        turbulent,
    };
    let a = stepping::step(
        flags, parts, masses, fills, carry, flags2, parts2, masses2, fills2, carry2, marks, s, g,
    );
    *place = place_of(a);
    number_of(a)
}
