// Test 2: the lengths of a lent set's slices.
ghost use Rattle.std.specs.Prelude.{◌≡◌, ◌&&◌, ◌*◌, ◌≤◌, eqb};

// Whether N flags, 19N parts, N masses, N fills and one carry are lent.
pub fn good_lengths(
    flags: usize,
    parts: usize,
    masses: usize,
    fills: usize,
    carry: usize,
    n: usize,
) -> bool
    requires { n ≤ 262144 }
    ensures { result ≡ (eqb flags n && eqb parts (19 * n) && eqb masses n && eqb fills n && eqb carry 1) }
{
    (flags == n) & (parts == 19 * n) & (masses == n) & (fills == n) & (carry == 1)
}
