// The run of a flume: what refuses it before its first step, and else its turns.
ghost use Rattle.std.specs.Prelude.{◌≡◌};
ghost use Rattle.grid.specs.State.{lent};
ghost use Rattle.flume.specs.Outcome.{flume_run_entry};
ghost use Rattle.flume.specs.Promise.{FlumeRanTo};

use flume::{FlumeSettings, FlumeSides};
use flumegrid::entry;
use flumeturns::turns;
use grid::refusals::{Answer, Refusal};
use run::running::Ran;

// The number of steps, and then tests 1 to 6: what refuses a run before its first step.
fn admitted(
    steps: usize,
    flags: &[u8],
    parts: &[i32],
    masses: &[i32],
    fills: &[u32],
    carry: &[i64],
    flags2: &[u8],
    parts2: &[i32],
    masses2: &[i32],
    fills2: &[u32],
    carry2: &[i64],
    marks: &[u8],
    s: FlumeSides,
    g: FlumeSettings,
) -> Answer
    ensures { result ≡ flume_run_entry steps s g (lent flags.now parts.now masses.now fills.now carry.now) (lent flags2.now parts2.now masses2.now fills2.now carry2.now) marks.now }
{
    if steps > 1000 {
        return Err(Refusal::BadSteps);
    }
    entry::entered(
        flags, parts, masses, fills, carry, flags2, parts2, masses2, fills2, carry2, marks, s, g,
    )
}

// At most `steps` steps, 0 to 1,000, from the first set; both sets then hold the state reached, but where the run is not admitted.
pub fn run(
    steps: usize,
    flags: &mut [u8],
    parts: &mut [i32],
    masses: &mut [i32],
    fills: &mut [u32],
    carry: &mut [i64],
    flags2: &mut [u8],
    parts2: &mut [i32],
    masses2: &mut [i32],
    fills2: &mut [u32],
    carry2: &mut [i64],
    marks: &mut [u8],
    s: FlumeSides,
    g: FlumeSettings,
) -> Ran
    ensures { FlumeRanTo steps s g (lent flags.old parts.old masses.old fills.old carry.old) (lent flags2.old parts2.old masses2.old fills2.old carry2.old) marks.old result.count result.answer (lent flags.new parts.new masses.new fills.new carry.new) (lent flags2.new parts2.new masses2.new fills2.new carry2.new) marks.new }
{
    let a = admitted(
        steps, flags, parts, masses, fills, carry, flags2, parts2, masses2, fills2, carry2, marks,
        s, g,
    );
    if let Err(refusal) = a {
        return Ran {
            count: 0,
            answer: Err(refusal),
        };
    }
    turns::going(
        steps, flags, parts, masses, fills, carry, flags2, parts2, masses2, fills2, carry2, marks,
        s, g,
    )
}
