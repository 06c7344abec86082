// Stage 7: the fill of an interface cell.
ghost use Rattle.std.specs.Prelude.{◌≡◌, pos, ◌<ℤ◌};
ghost use Rattle.whole.specs.laws.Machine.{Within};
ghost use Rattle.lattice.specs.Cell.{fill_of};

// floor(65,536·m/rho) held to 0..65,536. Between 0 and rho alone is there anything to divide.
pub fn part_fill(m: i64, rho: i64) -> u32
    requires { (pos 0 <ℤ rho) × Within rho 1099511627776 }
    ensures { result ≡ fill_of m rho }
{
    if m <= 0 {
        return 0;
    }
    if m >= rho {
        return 65536;
    }
    (65536 * m / rho) as u32
}
