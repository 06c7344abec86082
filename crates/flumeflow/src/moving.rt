// Stages 1 to 4 of one cell, written where they belong.
ghost use Rattle.std.specs.Prelude.{◌≡◌, true, List, [], ℕ, ◌+◌, ◌*◌, ◌≤◌, ℤ, pos, nat_abs, length, get_or, replicate};
ghost use Rattle.whole.specs.Fold.{tab};
ghost use Rattle.lattice.specs.Lattice.{d3q19, density};
ghost use Rattle.lattice.specs.inner.Held.{parts_of, Bounded};
ghost use Rattle.lattice.specs.Body.{body_good};
ghost use Rattle.turbulence.specs.inner.Post.{Keeps};
ghost use Rattle.grid.specs.State.{liquid};
ghost use Rattle.grid.specs.Step.{streamed};
ghost use Rattle.grid.specs.Outcome.{settings_good};
ghost use Rattle.nine.specs.inner.Cells.{Quiet, pasted9};
ghost use Rattle.flumearrivals.specs.inner.Seen.{sight9};
ghost use Rattle.flumeflow.specs.inner.PutAt.{PutAt9, Putting9, at_density};

use crate::relaxing::relaxation9;
use crate::streaming::chosen9;
use collision::gravity::pulled;
use flow::moving::Put;
use grid::kinds::is_liquid;
use lattice::directions::flow_of;
use lattice::moments::steady;
use lattice::rules::{all_inside, all_zero};
use lattice::{Flow, Settings};
use nine::cells::{own9, paste9, quieted};
use nine::collide::collided9;

// A flow whose density is known: its own sum then need not be made.
fn at_density(v: Flow, rho: i32) -> Flow
    ensures { result ≡ at_density v rho }
{
    Flow {
        rho: rho,
        x: v.x,
        y: v.y,
        z: v.z,
    }
}

// Whether new parts of density rho keep test 6's rules. As lattice's `fair_parts`, which has other callers: with one alone it melts into the pass over all
// cells, and the parts stay in registers.
fn fair(f: [i32; 19], rho: i32) -> bool
    requires { Bounded f 1073741824 33554432 × (density d3q19 (parts_of f) ≡ rho) }
    ensures { result ≡ body_good d3q19 (parts_of f) }
{
    all_inside(f) & steady(at_density(flow_of(f), rho))
}

// Stages 3 and 4 of a liquid cell c into which f streamed; nothing where it fails stage 3's test.
fn put_moved9(
    f: [i32; 19],
    parts2: &mut [i32],
    c: usize,
    g: Settings,
    keep: u64,
    surface: bool,
) -> Option<Put>
    requires { Bounded f 1572864 1441792 × Quiet f × (settings_good g ≡ true) × (9 * c + 9 ≤ length parts2.old) × Keeps (nat_abs g.p) keep }
    ensures { (flags : List ℕ) (parts : List ℤ) (fills off : List ℕ) (low : ℕ) → liquid (get_or flags c 3) ≡ true → f ≡ tab 19 (streamed (sight9 flags parts [] fills off low g) c) → PutAt9 (sight9 flags parts [] fills off low g) c parts2.old parts2.new result }
{
    let v = pulled(flow_of(f), g);
    if !steady(v) {
        return None;
    }
    let r = quieted(collided9(f, v, relaxation9(f, v, g, keep, surface)));
    paste9(parts2, c, r);
    Some(Put {
        fair: fair(r, v.rho),
        rho: v.rho,
    })
}

// Zeros for cell c, which is dry. They are looked for before they are written, since a cell that was dry a step or two ago has them already.
fn dry_out9(parts2: &mut [i32], c: usize)
    requires { 9 * c + 9 ≤ length parts2.old }
    ensures { parts2.new ≡ pasted9 parts2.old c (replicate 19 (pos 0)) }
{
    if !all_zero(own9(parts2, c)) {
        paste9(parts2, c, [0i32; 19]);
    }
}

// Stages 1 to 4 of cell c: zeros where it is not liquid; nothing where it fails stage 3's test.
pub fn put_parts9(
    flags: &[u8],
    parts: &[i32],
    fills: &[u32],
    parts2: &mut [i32],
    mark: u8,
    off: &[usize; 19],
    from: &[usize; 9],
    low: usize,
    c: usize,
    g: Settings,
    keep: u64,
) -> Option<Put>
    requires { Putting9 flags.now parts.now fills.now parts2.old mark off.now from.now low c g keep }
    ensures { PutAt9 (sight9 flags.now parts.now [] fills.now off.now low g) c parts2.old parts2.new result }
{
    if is_liquid(flags[c]) {
        return put_moved9(
            quieted(chosen9(flags, parts, fills, mark, off, from, low, c)),
            parts2,
            c,
            g,
            keep,
            flags[c] == 1,
        );
    }
    dry_out9(parts2, c);
    Some(Put { fair: true, rho: 0 })
}
