// Stage 1: the part that streams into a cell from one neighbour.
ghost use Rattle.std.specs.Prelude.{◌≡◌, List, [], ℕ, ◌+◌, ◌-◌, ◌<◌, ◌≤◌, length, get_or};
ghost use Rattle.whole.specs.Fold.{tab};
ghost use Rattle.lattice.specs.Cell.{is_positive};
ghost use Rattle.lattice.specs.declared.Settings.{Settings};
ghost use Rattle.grid.specs.Step.{leans_to, arrives};
ghost use Rattle.grid.specs.inner.Sight.{box_sight, Around};
ghost use Rattle.arrivals.specs.inner.Sources.{arrival_at, lean_at, Beside};
ghost use Rattle.arrivals.specs.inner.Trade.{Fills};

use grid::normal::normal;
use lattice::Flow;
use lattice::directions::{dots, weight_of};
use surface::stream::gas_pair;
use whole::wide;

// n·e of each direction, once for all of them; a fluid cell has no such lean.
pub fn leaning(flags: &[u8], fills: &[u32], off: &[usize; 19], low: usize, c: usize) -> [i32; 19]
    requires { Fills flags.now fills.now × Around (length flags.now) off.now low c }
    ensures { result ≡ tab 19 (lean_at flags.now fills.now off.now low c) }
{
    if flags[c] == 1 {
        return dots(normal(flags, fills, off, c - low));
    }
    [0i32; 19]
}

// What arrives at cell c from its neighbour b in direction i, whose opposite is k; v is the cell's flow, d its e·j, and n·e its lean.
pub fn arriving(
    flags: &[u8],
    parts: &[i32],
    c: usize,
    b: usize,
    i: usize,
    k: usize,
    v: Flow,
    d: i32,
    lean: i32,
) -> i32
    requires { Beside flags.now parts.now c b i k v d }
    ensures { (fills off : List ℕ) (low : ℕ) (g : Settings) → b ≡ (c - low) + get_or off i 0 → is_positive lean ≡ leans_to (box_sight flags.now parts.now [] fills off low g) c i → result ≡ arrives (box_sight flags.now parts.now [] fills off low g) c i k }
{
    let f = flags[b];
    if f > 2 {
        return parts[19 * c + i];
    }
    if (f == 0) | (lean > 0) {
        return (gas_pair(v, weight_of(i), d) - wide(parts[19 * c + i])) as i32;
    }
    parts[19 * b + k]
}

// Where the part lies that arrives at cell c from its neighbour b in direction i, whose opposite is k: a wall sends back what the cell sent. A choice
// between two places, which is no branch, where one between two parts would be.
pub fn source(flags: &[u8], c: usize, b: usize, i: usize, k: usize) -> usize
    requires { (length flags.now ≤ 262144) × (c < length flags.now) × (b < length flags.now) × (i < 19) × (k < 19) }
    ensures { result ≡ arrival_at flags.now c b i k }
{
    if flags[b] > 2 {
        return 19 * c + i;
    }
    19 * b + k
}
