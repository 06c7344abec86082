// The end of a flume's step, after pass 1: the conversion, the fills and test 8.
ghost use Rattle.std.specs.Prelude.{◌≡◌, suc, length};
ghost use Rattle.lattice.specs.Lattice.{d2q9};
ghost use Rattle.grid.specs.State.{lent, state_of};
ghost use Rattle.grid.specs.Good.{bad_rule};
ghost use Rattle.grid.specs.Outcome.{if_none};
ghost use Rattle.flumegrid.specs.inner.Ready.{FlumeSized};
ghost use Rattle.flumefinish.specs.inner.Finished.{FlumeFinishing, FlumeFinished};

use crate::settings;
use flume::{FlumeSettings, FlumeSides};
use flumeconversion::turning;
use flumefills::filling;
use flumegrid::checking;
use grid::refusals::{Answer, Refusal};

// Test 8 where something is not fair: test 6's own scan of the second set.
fn judged(flags2: &[u8], parts2: &[i32], masses2: &[i32], fills2: &[u32], carry2: &[i64]) -> Answer
    requires { FlumeSized (length flags2.now) (lent flags2.now parts2.now masses2.now fills2.now carry2.now) }
    ensures { result ≡ if_none (suc (length flags2.now)) Refusal.BadNext (bad_rule d2q9 (length flags2.now) (state_of 8 (lent flags2.now parts2.now masses2.now fills2.now carry2.now))) (Ok tt) }
{
    let d = checking::first_bad9(flags2, parts2, masses2, fills2, carry2[0]);
    if d <= flags2.len() {
        return Err(Refusal::BadNext(d));
    }
    Ok(())
}

// Stage 7, and test 8 by what the passes found fair.
pub fn finished(
    flags: &[u8],
    parts: &[i32],
    masses: &[i32],
    fills: &[u32],
    carry: &[i64],
    flags2: &mut [u8],
    parts2: &mut [i32],
    masses2: &mut [i32],
    fills2: &mut [u32],
    carry2: &mut [i64],
    marks: &mut [u8],
    fair: bool,
    calm: bool,
    s: FlumeSides,
    g: FlumeSettings,
) -> Answer
    requires { FlumeFinishing s g (lent flags.now parts.now masses.now fills.now carry.now) (lent flags2.old parts2.old masses2.old fills2.old carry2.old) marks.old fair calm }
    ensures { FlumeFinished s g (lent flags.now parts.now masses.now fills.now carry.now) result (lent flags2.new parts2.new masses2.new fills2.new carry2.new) marks.new }
{
    let h = settings::level(g);
    let a = turning::turned9(
        flags, parts, masses, fills, carry, flags2, parts2, masses2, carry2, marks, calm, s, h,
    );
    let b = filling::new_fills9(flags2, parts2, masses2, fills2);
    if fair & a & b {
        return Ok(());
    }
    judged(flags2, parts2, masses2, fills2, carry2)
}
