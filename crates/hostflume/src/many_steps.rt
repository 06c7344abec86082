// The run.
ghost use Rattle.grid.specs.State.{lent};
ghost use Rattle.hostflume.specs.Promise.{flume_sides_of, flume_settings_in, RunTold};

use flume::{FlumeSettings, FlumeSides};
use flumerun::running;
use host::answers::{number_of, place_of};

// At most `steps` steps between the two sets; how many were made.
#[unsafe(no_mangle)]
pub extern "C" fn skw_flume_run(
    steps: usize,
    flags: &mut [u8],
    parts: &mut [i32],
    masses: &mut [i32],
    fills: &mut [u32],
    carry: &mut [i64],
    flags2: &mut [u8],
    parts2: &mut [i32],
    masses2: &mut [i32],
    fills2: &mut [u32],
    carry2: &mut [i64],
    marks: &mut [u8],
    nx: usize,
    nz: usize,
    p: i64,
    gx: i64,
    gz: i64,
    turbulent: bool,
    number: &mut u8,
    place: &mut usize,
) -> usize
    ensures { RunTold steps (flume_sides_of nx nz) (flume_settings_in turbulent p gx gz) (lent flags.old parts.old masses.old fills.old carry.old) (lent flags2.old parts2.old masses2.old fills2.old carry2.old) marks.old result number.new place.new (lent flags.new parts.new masses.new fills.new carry.new) (lent flags2.new parts2.new masses2.new fills2.new carry2.new) marks.new }
{
    let s = FlumeSides { nx, nz };
    let g = FlumeSettings {
        p,
        gx,
        gz,
        turbulent,
    };
    let ran = running::run(
        steps, flags, parts, masses, fills, carry, flags2, parts2, masses2, fills2, carry2, marks,
        s, g,
    );
    let a = ran.answer;
    *number = number_of(a);
    *place = place_of(a);
    ran.count
}
