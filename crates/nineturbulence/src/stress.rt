// The stress of a flume's cell, by the four pairs of its directions: the five idle pairs hold nothing and stand still.
ghost use Rattle.std.specs.Prelude.{◌≡◌, true};
ghost use Rattle.lattice.specs.inner.Held.{parts_of, Bounded, vec, steady_flow};
ghost use Rattle.flume.specs.inner.Spread.{spread_lattice};
ghost use Rattle.nine.specs.inner.Cells.{Quiet};
ghost use Rattle.turbulence.specs.Turbulence.{beyond};
ghost use Rattle.turbulence.specs.inner.Post.{NineIs, Small};

use lattice::Flow;
use turbulence::stress::{Nine, equilibrium_pair, shared_of, slack};

// f − eq by pairs: an axis weighs 4 and a diagonal 1.
pub fn beyond9(f: [i32; 19], v: Flow) -> Nine
    requires { Bounded f 1572864 1572864 × (steady_flow v ≡ true) × Quiet f }
    ensures { NineIs (beyond spread_lattice v.rho (vec v) (parts_of f)) result × Small result }
{
    let k = shared_of(v);
    Nine {
        x: slack(f, 0, equilibrium_pair(v.x, k, 3)),
        y: 0,
        z: slack(f, 2, equilibrium_pair(v.z, k, 3)),
        xy: 0,
        yx: 0,
        yz: 0,
        zy: 0,
        xz: slack(f, 7, equilibrium_pair(v.x + v.z, k, 12)),
        zx: slack(f, 8, equilibrium_pair(v.x - v.z, k, 12)),
    }
}
