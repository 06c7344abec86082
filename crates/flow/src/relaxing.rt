// The relaxation that the collision of a cell takes: the settings' p, or in the turbulent mode the cell's own.
ghost use Rattle.std.specs.Prelude.{◌≡◌, true, nat_abs};
ghost use Rattle.lattice.specs.Lattice.{d3q19};
ghost use Rattle.lattice.specs.Cell.{relaxation_good};
ghost use Rattle.lattice.specs.inner.Held.{parts_of, Bounded, vec, steady_flow};
ghost use Rattle.turbulence.specs.inner.Post.{Keeps};
ghost use Rattle.grid.specs.Outcome.{settings_good};
ghost use Rattle.flow.specs.inner.Relaxed.{relaxed_by};

use lattice::{Flow, Settings};
use turbulence::relaxation::{kept, own_relaxation};

// A tension that keeps p, once for all cells of a pass; the plain mode asks for none.
pub fn keeping(g: Settings) -> u64
    requires { settings_good g ≡ true }
    ensures { Keeps (nat_abs g.p) result }
{
    if g.turbulent {
        return kept(g.p as u64);
    }
    0
}

// The relaxation of a cell that has passed stage 3's test; keep is `keeping`'s. The parts of a surface cell are rebuilt and hardly ever so calm that p is
// kept, so keep is not asked for there. In this form the plain mode makes 2 % more instructions than without the other one; with one call for all
// cells the stress melts into the pass over all cells in another way, and it makes 6 % more.
pub(crate) fn relaxation(f: [i32; 19], v: Flow, g: Settings, keep: u64, surface: bool) -> i64
    requires { Bounded f 1572864 1572864 × (steady_flow v ≡ true) × (settings_good g ≡ true) × Keeps (nat_abs g.p) keep }
    ensures { (result ≡ relaxed_by g.turbulent d3q19 v.rho (vec v) g.p (parts_of f)) × (relaxation_good result ≡ true) }
{
    if !g.turbulent {
        return g.p;
    }
    if surface {
        return own_relaxation(f, v, g.p, 0);
    }
    own_relaxation(f, v, g.p, keep)
}
