// The run: step after step between the two lent sets, first to second and back, until one is refused or all are made.
ghost use Rattle.std.specs.Prelude.{◌≡◌};
ghost use Rattle.grid.specs.Outcome.{run_entry};
ghost use Rattle.grid.specs.Promise.{RanTo};
ghost use Rattle.grid.specs.inner.Halfway.{Alike, Stepping, Resuming};
ghost use Rattle.grid.specs.State.{lent};
ghost use Rattle.run.specs.inner.Turns.{here, there, Crossed, Evened, Went};

use grid::Sides;
use grid::refusals::{Answer, Refusal};
use lattice::Settings;
use step::{entry, sets, stepping};
use walks::copying;

// How far a run came: the number of leading accepted steps, and the refusal that stopped it.
#[derive(Clone, Copy)]
pub struct Ran {
    pub count: usize,
    pub answer: Answer,
}

// One step from the set that holds the state to the other one.
fn turn(
    flags: &mut [u8],
    parts: &mut [i32],
    masses: &mut [i32],
    fills: &mut [u32],
    carry: &mut [i64],
    flags2: &mut [u8],
    parts2: &mut [i32],
    masses2: &mut [i32],
    fills2: &mut [u32],
    carry2: &mut [i64],
    marks: &mut [u8],
    back: bool,
    s: Sides,
    g: Settings,
) -> Answer
    requires { Resuming s g (here back (lent flags.old parts.old masses.old fills.old carry.old) (lent flags2.old parts2.old masses2.old fills2.old carry2.old)) (there back (lent flags.old parts.old masses.old fills.old carry.old) (lent flags2.old parts2.old masses2.old fills2.old carry2.old)) marks.old }
    ensures { Crossed s g back (lent flags.old parts.old masses.old fills.old carry.old) (lent flags2.old parts2.old masses2.old fills2.old carry2.old) result (lent flags.new parts.new masses.new fills.new carry.new) (lent flags2.new parts2.new masses2.new fills2.new carry2.new) marks.new }
{
    if back {
        return stepping::resumed(
            flags2, parts2, masses2, fills2, carry2, flags, parts, masses, fills, carry, marks, s,
            g,
        );
    }
    stepping::resumed(
        flags, parts, masses, fills, carry, flags2, parts2, masses2, fills2, carry2, marks, s, g,
    )
}

// Both sets become the one that holds the state.
pub fn evened(
    flags: &mut [u8],
    parts: &mut [i32],
    masses: &mut [i32],
    fills: &mut [u32],
    carry: &mut [i64],
    flags2: &mut [u8],
    parts2: &mut [i32],
    masses2: &mut [i32],
    fills2: &mut [u32],
    carry2: &mut [i64],
    back: bool,
)
    requires { Alike (here back (lent flags.old parts.old masses.old fills.old carry.old) (lent flags2.old parts2.old masses2.old fills2.old carry2.old)) (there back (lent flags.old parts.old masses.old fills.old carry.old) (lent flags2.old parts2.old masses2.old fills2.old carry2.old)) }
    ensures { Evened back (lent flags.old parts.old masses.old fills.old carry.old) (lent flags2.old parts2.old masses2.old fills2.old carry2.old) (lent flags.new parts.new masses.new fills.new carry.new) (lent flags2.new parts2.new masses2.new fills2.new carry2.new) }
{
    if back {
        sets::copied(
            flags2, parts2, masses2, fills2, carry2, flags, parts, masses, fills, carry,
        );
    } else {
        sets::copied(
            flags, parts, masses, fills, carry, flags2, parts2, masses2, fills2, carry2,
        );
    }
}

// The run of a set that is ready: no test is made again, since what an accepted step leaves is ready.
pub fn going(
    steps: usize,
    flags: &mut [u8],
    parts: &mut [i32],
    masses: &mut [i32],
    fills: &mut [u32],
    carry: &mut [i64],
    flags2: &mut [u8],
    parts2: &mut [i32],
    masses2: &mut [i32],
    fills2: &mut [u32],
    carry2: &mut [i64],
    marks: &mut [u8],
    s: Sides,
    g: Settings,
) -> Ran
    requires { Stepping s g (lent flags.old parts.old masses.old fills.old carry.old) (lent flags2.old parts2.old masses2.old fills2.old carry2.old) marks.old }
    ensures { Went steps s g (lent flags.old parts.old masses.old fills.old carry.old) marks.old result.count result.answer (lent flags.new parts.new masses.new fills.new carry.new) (lent flags2.new parts2.new masses2.new fills2.new carry2.new) marks.new }
{
    // Of the second set nothing is known yet: any cell of it may hold water.
    copying::put_all(flags2, 1);
    let mut back = false;
    for k in 0..steps {
        let a = turn(
            flags, parts, masses, fills, carry, flags2, parts2, masses2, fills2, carry2, marks,
            back, s, g,
        );
        if let Err(refusal) = a {
            return Ran {
                count: k,
                answer: Err(refusal),
            };
        }
        back = !back;
    }
    evened(
        flags, parts, masses, fills, carry, flags2, parts2, masses2, fills2, carry2, back,
    );
    copying::clear(marks);
    Ran {
        count: steps,
        answer: Ok(()),
    }
}

// The number of steps, and then tests 1 to 6: what refuses a run before its first step.
fn admitted(
    steps: usize,
    flags: &[u8],
    parts: &[i32],
    masses: &[i32],
    fills: &[u32],
    carry: &[i64],
    flags2: &[u8],
    parts2: &[i32],
    masses2: &[i32],
    fills2: &[u32],
    carry2: &[i64],
    marks: &[u8],
    s: Sides,
    g: Settings,
) -> Answer
    ensures { result ≡ run_entry steps s g (lent flags.now parts.now masses.now fills.now carry.now) (lent flags2.now parts2.now masses2.now fills2.now carry2.now) marks.now }
{
    if steps > 1000 {
        return Err(Refusal::BadSteps);
    }
    entry::entered(
        flags, parts, masses, fills, carry, flags2, parts2, masses2, fills2, carry2, marks, s, g,
    )
}

// At most `steps` steps, 0 to 1,000, from the first set; both sets then hold the state reached, but where the run is not admitted.
pub fn run(
    steps: usize,
    flags: &mut [u8],
    parts: &mut [i32],
    masses: &mut [i32],
    fills: &mut [u32],
    carry: &mut [i64],
    flags2: &mut [u8],
    parts2: &mut [i32],
    masses2: &mut [i32],
    fills2: &mut [u32],
    carry2: &mut [i64],
    marks: &mut [u8],
    s: Sides,
    g: Settings,
) -> Ran
    ensures { RanTo steps s g (lent flags.old parts.old masses.old fills.old carry.old) (lent flags2.old parts2.old masses2.old fills2.old carry2.old) marks.old result.count result.answer (lent flags.new parts.new masses.new fills.new carry.new) (lent flags2.new parts2.new masses2.new fills2.new carry2.new) marks.new }
{
    let a = admitted(
        steps, flags, parts, masses, fills, carry, flags2, parts2, masses2, fills2, carry2, marks,
        s, g,
    );
    if let Err(refusal) = a {
        return Ran {
            count: 0,
            answer: Err(refusal),
        };
    }
    going(
        steps, flags, parts, masses, fills, carry, flags2, parts2, masses2, fills2, carry2, marks,
        s, g,
    )
}
