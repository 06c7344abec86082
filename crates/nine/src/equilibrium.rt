// Stage 5: the parts of a new interface cell.
ghost use Rattle.std.specs.Prelude.{◌≡◌};
ghost use Rattle.whole.specs.Fold.{tab};
ghost use Rattle.lattice.specs.inner.Held.{Bounded, vec, Tame};
ghost use Rattle.lattice.specs.Body.{equilibrium_part};
ghost use Rattle.flume.specs.inner.Spread.{spread_lattice};

use crate::collide::by_divider9;
use lattice::Flow;

// The parts of a cell that begins with flow v: what no parts at all become by a collision that relaxes them whole.
pub fn equilibrium9(v: Flow) -> [i32; 19]
    requires { Tame v }
    ensures { (result ≡ tab 19 (equilibrium_part spread_lattice v.rho (vec v))) × Bounded result 1073741824 33554432 }
{
    let mut f = [0i32; 19];
    by_divider9(&mut f, v, 1024);
    f
}
