// Stages 5 and 6 in the flume: what is converted, and what becomes of its excess.
ghost use Rattle.std.specs.Prelude.{◌≡◌, false};
ghost use Rattle.grid.specs.State.{lent};
ghost use Rattle.flumeconversion.specs.inner.Turned.{FlumeTurning, FlumeTurned};

use crate::{birth, settling};
use conversion::emptying;
use flume::FlumeSides;
use flumeexcess::{giving, straying};
use flumegrid::neighbours;
use flumemarks::marks;
use lattice::Settings;
use lattice::limits::fair_carry;
use walks::copying;

// Passes 2 to 7. The flags are a copy of the old ones, of which pass 3 changes those that turn.
fn converted9(
    flags: &[u8],
    parts: &[i32],
    masses: &[i32],
    fills: &[u32],
    carry: &[i64],
    flags2: &mut [u8],
    parts2: &mut [i32],
    masses2: &mut [i32],
    carry2: &mut [i64],
    marks: &mut [u8],
    s: FlumeSides,
    g: Settings,
) -> bool
    requires { FlumeTurning s g (lent flags.now parts.now masses.now fills.now carry.now) flags2.old parts2.old masses2.old carry2.old marks.old false × (flags2.old ≡ flags.now) }
    ensures { FlumeTurned s g (lent flags.now parts.now masses.now fills.now carry.now) flags2.new parts2.new masses2.new carry2.new marks.new result }
{
    let off = neighbours::offsets(s);
    let low = neighbours::low_of(s);
    emptying::settle_marks_by(marks, &off, low);
    marks::new_flags9(flags, marks, flags2, &off, low);
    let a = birth::newborn9(flags, parts, fills, flags2, parts2, &off, low, g);
    let k = straying::new_carry9(flags2, parts2, masses2, marks, carry[0], &off, low);
    carry2[0] = k;
    giving::gather9(flags2, fills, parts2, masses2, marks, &off, low);
    settling::settle9(parts2, masses2, marks);
    a & fair_carry(k)
}

// The conversion, if any: flags and carry are copied, and where nothing converts that is all.
pub fn turned9(
    flags: &[u8],
    parts: &[i32],
    masses: &[i32],
    fills: &[u32],
    carry: &[i64],
    flags2: &mut [u8],
    parts2: &mut [i32],
    masses2: &mut [i32],
    carry2: &mut [i64],
    marks: &mut [u8],
    calm: bool,
    s: FlumeSides,
    g: Settings,
) -> bool
    requires { FlumeTurning s g (lent flags.now parts.now masses.now fills.now carry.now) flags2.old parts2.old masses2.old carry2.old marks.old calm }
    ensures { FlumeTurned s g (lent flags.now parts.now masses.now fills.now carry.now) flags2.new parts2.new masses2.new carry2.new marks.new result }
{
    copying::copy(flags, flags2);
    copying::copy(carry, carry2);
    if calm {
        return true;
    }
    converted9(
        flags, parts, masses, fills, carry, flags2, parts2, masses2, carry2, marks, s, g,
    )
}
