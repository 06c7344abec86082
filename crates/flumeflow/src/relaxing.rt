// The relaxation that the collision of a flume's cell takes: the settings' p, or in the turbulent mode the cell's own.
ghost use Rattle.std.specs.Prelude.{◌≡◌, true, nat_abs};
ghost use Rattle.lattice.specs.Cell.{relaxation_good};
ghost use Rattle.lattice.specs.inner.Held.{parts_of, Bounded, vec, steady_flow};
ghost use Rattle.turbulence.specs.inner.Post.{Keeps};
ghost use Rattle.grid.specs.Outcome.{settings_good};
ghost use Rattle.flow.specs.inner.Relaxed.{relaxed_by};
ghost use Rattle.flume.specs.inner.Spread.{spread_lattice};
ghost use Rattle.nine.specs.inner.Cells.{Quiet};

use lattice::{Flow, Settings};
use nineturbulence::relaxation::own_relaxation9;

// The relaxation of a cell that has passed stage 3's test, as the box's has it.
pub(crate) fn relaxation9(f: [i32; 19], v: Flow, g: Settings, keep: u64, surface: bool) -> i64
    requires { Bounded f 1572864 1441792 × (steady_flow v ≡ true) × (settings_good g ≡ true) × Keeps (nat_abs g.p) keep × Quiet f }
    ensures { (result ≡ relaxed_by g.turbulent spread_lattice v.rho (vec v) g.p (parts_of f)) × (relaxation_good result ≡ true) }
{
    if !g.turbulent {
        return g.p;
    }
    if surface {
        return own_relaxation9(f, v, g.p, 0);
    }
    own_relaxation9(f, v, g.p, keep)
}
