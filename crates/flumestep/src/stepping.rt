// The step of a flume that passed tests 1 to 6: passes in a row, and on refusal 7 or 8 the copy.
ghost use Rattle.grid.specs.State.{lent};
ghost use Rattle.flume.specs.Promise.{FlumeStepped};
ghost use Rattle.flumegrid.specs.inner.Ready.{FlumeEntered, FlumeResuming};
ghost use Rattle.flumestep.specs.inner.Advanced.{FlumeTried, FlumeAdvanced};

use crate::marking;
use flume::{FlumeSettings, FlumeSides};
use flumefinish::{finishing, settings};
use flumegrid::entry;
use flumepasses::passing;
use grid::refusals::{Answer, Refusal};
use step::sets;
use walks::copying;

// The passes in a row; after a refusal the second set holds what was worked out so far.
fn tried(
    flags: &[u8],
    parts: &[i32],
    masses: &[i32],
    fills: &[u32],
    carry: &[i64],
    flags2: &mut [u8],
    parts2: &mut [i32],
    masses2: &mut [i32],
    fills2: &mut [u32],
    carry2: &mut [i64],
    marks: &mut [u8],
    s: FlumeSides,
    g: FlumeSettings,
) -> Answer
    requires { FlumeResuming s g (lent flags.now parts.now masses.now fills.now carry.now) (lent flags2.old parts2.old masses2.old fills2.old carry2.old) marks.old }
    ensures { FlumeTried s g (lent flags.now parts.now masses.now fills.now carry.now) result (lent flags2.new parts2.new masses2.new fills2.new carry2.new) marks.new }
{
    marking::mark_open(flags, marks, s);
    let h = settings::level(g);
    let a = passing::flowing9(
        flags, parts, masses, fills, flags2, parts2, masses2, marks, s, h,
    );
    match a {
        Err(c) => Err(Refusal::BadFlow(c)),
        Ok(found) => finishing::finished(
            flags, parts, masses, fills, carry, flags2, parts2, masses2, fills2, carry2, marks,
            found.fair, found.calm, s, g,
        ),
    }
}

// The step of a set that is ready, within a run: the second set holds the state of two steps before, or flags that are all 1.
pub fn resumed(
    flags: &[u8],
    parts: &[i32],
    masses: &[i32],
    fills: &[u32],
    carry: &[i64],
    flags2: &mut [u8],
    parts2: &mut [i32],
    masses2: &mut [i32],
    fills2: &mut [u32],
    carry2: &mut [i64],
    marks: &mut [u8],
    s: FlumeSides,
    g: FlumeSettings,
) -> Answer
    requires { FlumeResuming s g (lent flags.now parts.now masses.now fills.now carry.now) (lent flags2.old parts2.old masses2.old fills2.old carry2.old) marks.old }
    ensures { FlumeAdvanced s g (lent flags.now parts.now masses.now fills.now carry.now) result (lent flags2.new parts2.new masses2.new fills2.new carry2.new) marks.new }
{
    let a = tried(
        flags, parts, masses, fills, carry, flags2, parts2, masses2, fills2, carry2, marks, s, g,
    );
    if let Err(refusal) = a {
        sets::copied(
            flags, parts, masses, fills, carry, flags2, parts2, masses2, fills2, carry2,
        );
        copying::clear(marks);
        return Err(refusal);
    }
    Ok(())
}

// The step of a set that is ready. Nothing is known of the second set, so every cell of it may hold water.
pub fn advanced(
    flags: &[u8],
    parts: &[i32],
    masses: &[i32],
    fills: &[u32],
    carry: &[i64],
    flags2: &mut [u8],
    parts2: &mut [i32],
    masses2: &mut [i32],
    fills2: &mut [u32],
    carry2: &mut [i64],
    marks: &mut [u8],
    s: FlumeSides,
    g: FlumeSettings,
) -> Answer
    requires { FlumeEntered s g (lent flags.now parts.now masses.now fills.now carry.now) (lent flags2.old parts2.old masses2.old fills2.old carry2.old) marks.old }
    ensures { FlumeAdvanced s g (lent flags.now parts.now masses.now fills.now carry.now) result (lent flags2.new parts2.new masses2.new fills2.new carry2.new) marks.new }
{
    copying::put_all(flags2, 1);
    resumed(
        flags, parts, masses, fills, carry, flags2, parts2, masses2, fills2, carry2, marks, s, g,
    )
}

// One step: tests 1 to 6, then the step of a set that passed them.
pub fn step(
    flags: &[u8],
    parts: &[i32],
    masses: &[i32],
    fills: &[u32],
    carry: &[i64],
    flags2: &mut [u8],
    parts2: &mut [i32],
    masses2: &mut [i32],
    fills2: &mut [u32],
    carry2: &mut [i64],
    marks: &mut [u8],
    s: FlumeSides,
    g: FlumeSettings,
) -> Answer
    ensures { FlumeStepped s g (lent flags.now parts.now masses.now fills.now carry.now) (lent flags2.old parts2.old masses2.old fills2.old carry2.old) marks.old result (lent flags2.new parts2.new masses2.new fills2.new carry2.new) marks.new }
{
    entry::entered(
        flags, parts, masses, fills, carry, flags2, parts2, masses2, fills2, carry2, marks, s, g,
    )?;
    advanced(
        flags, parts, masses, fills, carry, flags2, parts2, masses2, fills2, carry2, marks, s, g,
    )
}
