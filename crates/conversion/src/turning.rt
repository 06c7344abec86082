// Stages 5 and 6: what is converted, and what becomes of its excess.
ghost use Rattle.std.specs.Prelude.{◌≡◌, true, false};
ghost use Rattle.grid.specs.Grid.{cells_of};
ghost use Rattle.grid.specs.State.{lent};
ghost use Rattle.grid.specs.Outcome.{scene_of};
ghost use Rattle.grid.specs.inner.Halfway.{Turning, Turned};

use crate::{birth, convert, emptying, settling};
use excess::{giving, straying};
use grid::Sides;
use lattice::Settings;
use lattice::limits::fair_carry;
use walks::copying;

// Passes 2 to 7. The flags are a copy of the old ones, of which pass 3 changes those that turn.
fn converted(
    flags: &[u8],
    parts: &[i32],
    masses: &[i32],
    fills: &[u32],
    carry: &[i64],
    flags2: &mut [u8],
    parts2: &mut [i32],
    masses2: &mut [i32],
    carry2: &mut [i64],
    marks: &mut [u8],
    s: Sides,
    g: Settings,
) -> bool
    requires { Turning s g (lent flags.now parts.now masses.now fills.now carry.now) flags2.old parts2.old masses2.old carry2.old marks.old false × (flags2.old ≡ flags.now) }
    ensures { Turned (scene_of s g (lent flags.now parts.now masses.now fills.now carry.now)) (cells_of s) flags2.new parts2.new masses2.new carry2.new marks.new result }
{
    emptying::settle_marks(marks, s);
    convert::new_flags(flags, marks, flags2, s);
    let a = birth::newborn(flags, parts, fills, flags2, parts2, s, g);
    let k = straying::new_carry(flags2, parts2, masses2, marks, carry[0], s);
    carry2[0] = k;
    giving::gather(flags2, fills, parts2, masses2, marks, s);
    settling::settle(parts2, masses2, marks);
    a & fair_carry(k)
}

// The conversion, if any: flags and carry are copied, and where nothing converts that is all.
pub fn turned(
    flags: &[u8],
    parts: &[i32],
    masses: &[i32],
    fills: &[u32],
    carry: &[i64],
    flags2: &mut [u8],
    parts2: &mut [i32],
    masses2: &mut [i32],
    carry2: &mut [i64],
    marks: &mut [u8],
    calm: bool,
    s: Sides,
    g: Settings,
) -> bool
    requires { Turning s g (lent flags.now parts.now masses.now fills.now carry.now) flags2.old parts2.old masses2.old carry2.old marks.old calm }
    ensures { Turned (scene_of s g (lent flags.now parts.now masses.now fills.now carry.now)) (cells_of s) flags2.new parts2.new masses2.new carry2.new marks.new result }
{
    copying::copy(flags, flags2);
    copying::copy(carry, carry2);
    if calm {
        return true;
    }
    converted(
        flags, parts, masses, fills, carry, flags2, parts2, masses2, carry2, marks, s, g,
    )
}
