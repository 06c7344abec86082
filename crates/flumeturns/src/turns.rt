// The turns of a flume's run: step after step between the two lent sets, first to second and back, until one is refused or all are made.
ghost use Rattle.grid.specs.State.{lent};
ghost use Rattle.run.specs.inner.Turns.{here, there};
ghost use Rattle.flumegrid.specs.inner.Ready.{FlumeEntered, FlumeResuming};
ghost use Rattle.flumeturns.specs.inner.Turns.{FlumeCrossed, FlumeWent};

use flume::{FlumeSettings, FlumeSides};
use flumestep::stepping;
use grid::refusals::Answer;
use run::running;
use run::running::Ran;
use walks::copying;

// One step from the set that holds the state to the other one.
fn turn(
    flags: &mut [u8],
    parts: &mut [i32],
    masses: &mut [i32],
    fills: &mut [u32],
    carry: &mut [i64],
    flags2: &mut [u8],
    parts2: &mut [i32],
    masses2: &mut [i32],
    fills2: &mut [u32],
    carry2: &mut [i64],
    marks: &mut [u8],
    back: bool,
    s: FlumeSides,
    g: FlumeSettings,
) -> Answer
    requires { FlumeResuming s g (here back (lent flags.old parts.old masses.old fills.old carry.old) (lent flags2.old parts2.old masses2.old fills2.old carry2.old)) (there back (lent flags.old parts.old masses.old fills.old carry.old) (lent flags2.old parts2.old masses2.old fills2.old carry2.old)) marks.old }
    ensures { FlumeCrossed s g back (lent flags.old parts.old masses.old fills.old carry.old) (lent flags2.old parts2.old masses2.old fills2.old carry2.old) result (lent flags.new parts.new masses.new fills.new carry.new) (lent flags2.new parts2.new masses2.new fills2.new carry2.new) marks.new }
{
    if back {
        return stepping::resumed(
            flags2, parts2, masses2, fills2, carry2, flags, parts, masses, fills, carry, marks, s,
            g,
        );
    }
    stepping::resumed(
        flags, parts, masses, fills, carry, flags2, parts2, masses2, fills2, carry2, marks, s, g,
    )
}

// The run of a set that is ready: no test is made again, since what an accepted step leaves is ready.
pub fn going(
    steps: usize,
    flags: &mut [u8],
    parts: &mut [i32],
    masses: &mut [i32],
    fills: &mut [u32],
    carry: &mut [i64],
    flags2: &mut [u8],
    parts2: &mut [i32],
    masses2: &mut [i32],
    fills2: &mut [u32],
    carry2: &mut [i64],
    marks: &mut [u8],
    s: FlumeSides,
    g: FlumeSettings,
) -> Ran
    requires { FlumeEntered s g (lent flags.old parts.old masses.old fills.old carry.old) (lent flags2.old parts2.old masses2.old fills2.old carry2.old) marks.old }
    ensures { FlumeWent steps s g (lent flags.old parts.old masses.old fills.old carry.old) marks.old result.count result.answer (lent flags.new parts.new masses.new fills.new carry.new) (lent flags2.new parts2.new masses2.new fills2.new carry2.new) marks.new }
{
    // Of the second set nothing is known yet: any cell of it may hold water.
    copying::put_all(flags2, 1);
    let mut back = false;
    for k in 0..steps {
        let a = turn(
            flags, parts, masses, fills, carry, flags2, parts2, masses2, fills2, carry2, marks,
            back, s, g,
        );
        if let Err(refusal) = a {
            return Ran {
                count: k,
                answer: Err(refusal),
            };
        }
        back = !back;
    }
    running::evened(
        flags, parts, masses, fills, carry, flags2, parts2, masses2, fills2, carry2, back,
    );
    copying::clear(marks);
    Ran {
        count: steps,
        answer: Ok(()),
    }
}
