// Stage 1: the part that streams into a cell from one neighbour.
ghost use Rattle.std.specs.Prelude.{◌≡◌, List, [], ℕ, ◌+◌, ◌-◌, get_or};
ghost use Rattle.lattice.specs.Cell.{is_positive};
ghost use Rattle.lattice.specs.declared.Settings.{Settings};
ghost use Rattle.grid.specs.Step.{leans_to, arrives};
ghost use Rattle.flume.specs.inner.Spread.{wide};
ghost use Rattle.flumearrivals.specs.inner.Seen.{sight9, Beside9};

use lattice::Flow;
use nine::weights::weight9;
use surface::stream::gas_pair;
use whole::wide;

// What arrives at cell c from its neighbour b in direction k, which stands at place i and whose opposite is m; v is the cell's flow, d its e·j, and n·e
// its lean.
pub fn arriving9(
    flags: &[u8],
    parts: &[i32],
    c: usize,
    b: usize,
    i: usize,
    k: usize,
    m: usize,
    v: Flow,
    d: i32,
    lean: i32,
) -> i32
    requires { Beside9 flags.now parts.now c b i k m v d }
    ensures { (fills off : List ℕ) (low : ℕ) (g : Settings) → b ≡ (c - low) + get_or off i 0 → is_positive lean ≡ leans_to (sight9 flags.now parts.now [] fills off low g) c i → result ≡ arrives (sight9 flags.now parts.now [] fills off low g) c i (wide m) }
{
    let f = flags[b];
    if f > 2 {
        return parts[9 * c + k];
    }
    if (f == 0) | (lean > 0) {
        return (gas_pair(v, weight9(i), d) - wide(parts[9 * c + k])) as i32;
    }
    parts[9 * b + m]
}
