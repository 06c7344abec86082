// Own p of a flume's cell.
ghost use Rattle.std.specs.Prelude.{◌≡◌, true, nat_abs};
ghost use Rattle.lattice.specs.Cell.{relaxation_good};
ghost use Rattle.lattice.specs.inner.Held.{parts_of, Bounded, vec, steady_flow};
ghost use Rattle.flume.specs.inner.Spread.{spread_lattice};
ghost use Rattle.nine.specs.inner.Cells.{Quiet};
ghost use Rattle.turbulence.specs.Turbulence.{own_relaxation};
ghost use Rattle.turbulence.specs.inner.Post.{Keeps};

use crate::stress::beyond9;
use lattice::Flow;
use turbulence::relaxation::own_from;
use turbulence::stress::tension;

// Own p of a cell that has passed stage 3's test; keep is `kept` of p.
pub fn own_relaxation9(f: [i32; 19], v: Flow, p: i64, keep: u64) -> i64
    requires { Bounded f 1572864 1572864 × (steady_flow v ≡ true) × (relaxation_good p ≡ true) × Keeps (nat_abs p) keep × Quiet f }
    ensures { (result ≡ own_relaxation spread_lattice v.rho (vec v) p (parts_of f)) × (relaxation_good result ≡ true) }
{
    own_from(p as u64, tension(beyond9(f, v)), keep) as i64
}
