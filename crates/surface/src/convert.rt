// Stage 5: which interface cells are filled or emptied.
ghost use Rattle.std.specs.Prelude.{◌≡◌, cond};
ghost use Rattle.whole.specs.laws.Machine.{Within};
ghost use Rattle.lattice.specs.Cell.{over, under};

// 1 where mass m at density rho is filled, 2 where it would be emptied, else 0.
pub fn mark_of(m: i64, rho: i64) -> u8
    requires { Within m 1000000000000 × Within rho 1000000000000 }
    ensures { result ≡ cond (over m rho) 1 (cond (under m rho) 2 0) }
{
    if 1000 * m > 1001 * rho {
        return 1;
    }
    if 1000 * m < -rho {
        return 2;
    }
    0
}
