// Stage 2: what passes between two interface cells.
ghost use Rattle.std.specs.Prelude.{◌≡◌, pos, nat_abs, ◌≤ℤ◌};
ghost use Rattle.whole.specs.laws.Machine.{Within};
ghost use Rattle.lattice.specs.Cell.{exchange};

// The mean of two fills, which add up to `fills`, times d, cut.
pub fn exchange(fills: i64, d: i64) -> i64
    requires { (pos 0 ≤ℤ fills) × Within fills 131072 × Within d 1000000000000 }
    ensures { result ≡ exchange (nat_abs fills) d }
{
    fills * d / 131072
}
