// A lent set as a whole.
ghost use Rattle.std.specs.Prelude.{◌≡◌};
ghost use Rattle.grid.specs.State.{lent};
ghost use Rattle.grid.specs.inner.Halfway.{Alike};

use walks::copying;

// The second set becomes a copy of the first.
pub fn copied(
    flags: &[u8],
    parts: &[i32],
    masses: &[i32],
    fills: &[u32],
    carry: &[i64],
    flags2: &mut [u8],
    parts2: &mut [i32],
    masses2: &mut [i32],
    fills2: &mut [u32],
    carry2: &mut [i64],
)
    requires { Alike (lent flags.now parts.now masses.now fills.now carry.now) (lent flags2.old parts2.old masses2.old fills2.old carry2.old) }
    ensures { lent flags2.new parts2.new masses2.new fills2.new carry2.new ≡ lent flags.now parts.now masses.now fills.now carry.now }
{
    copying::copy(flags, flags2);
    copying::copy(parts, parts2);
    copying::copy(masses, masses2);
    copying::copy(fills, fills2);
    copying::copy(carry, carry2);
}
