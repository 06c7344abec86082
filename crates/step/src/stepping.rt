// The step of a set that passed tests 1 to 6: passes in a row, and on refusal 7 or 8 the copy.
ghost use Rattle.std.specs.Prelude.{◌≡◌, suc, length};
ghost use Rattle.lattice.specs.Lattice.{d3q19};
ghost use Rattle.grid.specs.State.{lent, state_of};
ghost use Rattle.grid.specs.Good.{bad_rule};
ghost use Rattle.grid.specs.Outcome.{if_none};
ghost use Rattle.grid.specs.inner.Between.{Sized};
ghost use Rattle.grid.specs.inner.Halfway.{Stepping, Resuming, Advanced};
ghost use Rattle.grid.specs.Promise.{Stepped};
ghost use Rattle.step.specs.inner.Finished.{Finishing, Finished, Tried};

use crate::{entry, sets};
use checks::checking;
use conversion::turning;
use fills::filling;
use grid::Sides;
use grid::refusals::{Answer, Refusal};
use lattice::Settings;
use passes::{marks, passing};
use walks::copying;

// Test 8 where something is not fair: test 6's own scan of the second set.
fn judged(flags2: &[u8], parts2: &[i32], masses2: &[i32], fills2: &[u32], carry2: &[i64]) -> Answer
    requires { Sized (length flags2.now) (lent flags2.now parts2.now masses2.now fills2.now carry2.now) }
    ensures { result ≡ if_none (suc (length flags2.now)) Refusal.BadNext (bad_rule d3q19 (length flags2.now) (state_of 18 (lent flags2.now parts2.now masses2.now fills2.now carry2.now))) (Ok tt) }
{
    let d = checking::first_bad(flags2, parts2, masses2, fills2, carry2[0]);
    if d <= flags2.len() {
        return Err(Refusal::BadNext(d));
    }
    Ok(())
}

// Stage 7, and test 8 by what the passes found fair.
fn finished(
    flags: &[u8],
    parts: &[i32],
    masses: &[i32],
    fills: &[u32],
    carry: &[i64],
    flags2: &mut [u8],
    parts2: &mut [i32],
    masses2: &mut [i32],
    fills2: &mut [u32],
    carry2: &mut [i64],
    marks: &mut [u8],
    fair: bool,
    calm: bool,
    s: Sides,
    g: Settings,
) -> Answer
    requires { Finishing s g (lent flags.now parts.now masses.now fills.now carry.now) (lent flags2.old parts2.old masses2.old fills2.old carry2.old) marks.old fair calm }
    ensures { Finished s g (lent flags.now parts.now masses.now fills.now carry.now) result (lent flags2.new parts2.new masses2.new fills2.new carry2.new) marks.new }
{
    let a = turning::turned(
        flags, parts, masses, fills, carry, flags2, parts2, masses2, carry2, marks, calm, s, g,
    );
    let b = filling::new_fills(flags2, parts2, masses2, fills2);
    if fair & a & b {
        return Ok(());
    }
    judged(flags2, parts2, masses2, fills2, carry2)
}

// The passes in a row; after a refusal the second set holds what was worked out so far.
fn tried(
    flags: &[u8],
    parts: &[i32],
    masses: &[i32],
    fills: &[u32],
    carry: &[i64],
    flags2: &mut [u8],
    parts2: &mut [i32],
    masses2: &mut [i32],
    fills2: &mut [u32],
    carry2: &mut [i64],
    marks: &mut [u8],
    s: Sides,
    g: Settings,
) -> Answer
    requires { Resuming s g (lent flags.now parts.now masses.now fills.now carry.now) (lent flags2.old parts2.old masses2.old fills2.old carry2.old) marks.old }
    ensures { Tried s g (lent flags.now parts.now masses.now fills.now carry.now) result (lent flags2.new parts2.new masses2.new fills2.new carry2.new) marks.new }
{
    marks::mark_open(flags, marks, s);
    let a = passing::flowing(
        flags, parts, masses, fills, flags2, parts2, masses2, marks, s, g,
    );
    match a {
        Err(c) => Err(Refusal::BadFlow(c)),
        Ok(found) => finished(
            flags, parts, masses, fills, carry, flags2, parts2, masses2, fills2, carry2, marks,
            found.fair, found.calm, s, g,
        ),
    }
}

// The step of a set that is ready, within a run: the second set holds the state of two steps before, or flags that are all 1.
pub fn resumed(
    flags: &[u8],
    parts: &[i32],
    masses: &[i32],
    fills: &[u32],
    carry: &[i64],
    flags2: &mut [u8],
    parts2: &mut [i32],
    masses2: &mut [i32],
    fills2: &mut [u32],
    carry2: &mut [i64],
    marks: &mut [u8],
    s: Sides,
    g: Settings,
) -> Answer
    requires { Resuming s g (lent flags.now parts.now masses.now fills.now carry.now) (lent flags2.old parts2.old masses2.old fills2.old carry2.old) marks.old }
    ensures { Advanced s g (lent flags.now parts.now masses.now fills.now carry.now) result (lent flags2.new parts2.new masses2.new fills2.new carry2.new) marks.new }
{
    let a = tried(
        flags, parts, masses, fills, carry, flags2, parts2, masses2, fills2, carry2, marks, s, g,
    );
    if let Err(refusal) = a {
        sets::copied(
            flags, parts, masses, fills, carry, flags2, parts2, masses2, fills2, carry2,
        );
        copying::clear(marks);
        return Err(refusal);
    }
    Ok(())
}

// The step of a set that is ready. Nothing is known of the second set, so every cell of it may hold water.
pub fn advanced(
    flags: &[u8],
    parts: &[i32],
    masses: &[i32],
    fills: &[u32],
    carry: &[i64],
    flags2: &mut [u8],
    parts2: &mut [i32],
    masses2: &mut [i32],
    fills2: &mut [u32],
    carry2: &mut [i64],
    marks: &mut [u8],
    s: Sides,
    g: Settings,
) -> Answer
    requires { Stepping s g (lent flags.now parts.now masses.now fills.now carry.now) (lent flags2.old parts2.old masses2.old fills2.old carry2.old) marks.old }
    ensures { Advanced s g (lent flags.now parts.now masses.now fills.now carry.now) result (lent flags2.new parts2.new masses2.new fills2.new carry2.new) marks.new }
{
    copying::put_all(flags2, 1);
    resumed(
        flags, parts, masses, fills, carry, flags2, parts2, masses2, fills2, carry2, marks, s, g,
    )
}

// One step: tests 1 to 6, then the step of a set that passed them.
pub fn step(
    flags: &[u8],
    parts: &[i32],
    masses: &[i32],
    fills: &[u32],
    carry: &[i64],
    flags2: &mut [u8],
    parts2: &mut [i32],
    masses2: &mut [i32],
    fills2: &mut [u32],
    carry2: &mut [i64],
    marks: &mut [u8],
    s: Sides,
    g: Settings,
) -> Answer
    ensures { Stepped s g (lent flags.now parts.now masses.now fills.now carry.now) (lent flags2.old parts2.old masses2.old fills2.old carry2.old) marks.old result (lent flags2.new parts2.new masses2.new fills2.new carry2.new) marks.new }
{
    entry::entered(
        flags, parts, masses, fills, carry, flags2, parts2, masses2, fills2, carry2, marks, s, g,
    )?;
    advanced(
        flags, parts, masses, fills, carry, flags2, parts2, masses2, fills2, carry2, marks, s, g,
    )
}
