// Tests 1 to 6 of a flume: what step and run begin with.
ghost use Rattle.std.specs.Prelude.{◌≡◌};
ghost use Rattle.grid.specs.State.{lent};
ghost use Rattle.grid.specs.Outcome.{settings_good};
ghost use Rattle.flume.specs.Flume.{level_settings};
ghost use Rattle.flume.specs.Outcome.{flume_entry};

use crate::{checking, lengths};
use flume::{FlumeSettings, FlumeSides, extent};
use grid::refusals::{Answer, Refusal};
use lattice::{Settings, limits};

// Test 3: the box's, of gravity with no y.
fn good_settings(g: FlumeSettings) -> bool
    ensures { result ≡ settings_good (level_settings g) }
{
    limits::good_settings(Settings {
        p: g.p,
        gx: g.gx,
        gy: 0,
        gz: g.gz,
        turbulent: g.turbulent,
    })
}

// What a step is refused for before it begins.
pub fn entered(
    flags: &[u8],
    parts: &[i32],
    masses: &[i32],
    fills: &[u32],
    carry: &[i64],
    flags2: &[u8],
    parts2: &[i32],
    masses2: &[i32],
    fills2: &[u32],
    carry2: &[i64],
    marks: &[u8],
    s: FlumeSides,
    g: FlumeSettings,
) -> Answer
    ensures { result ≡ flume_entry s g (lent flags.now parts.now masses.now fills.now carry.now) (lent flags2.now parts2.now masses2.now fills2.now carry2.now) marks.now (Ok tt) }
{
    if !extent::good_sides(s) {
        return Err(Refusal::BadSides);
    }
    let n = extent::cells(s);
    let first = lengths::good_lengths9(
        flags.len(),
        parts.len(),
        masses.len(),
        fills.len(),
        carry.len(),
        n,
    );
    let second = lengths::good_lengths9(
        flags2.len(),
        parts2.len(),
        masses2.len(),
        fills2.len(),
        carry2.len(),
        n,
    );
    if !(first & second & (marks.len() == n)) {
        return Err(Refusal::BadLength);
    }
    if !good_settings(g) {
        return Err(Refusal::BadSetting(0));
    }
    checking::checked9(flags, parts, masses, fills, carry, s)
}
