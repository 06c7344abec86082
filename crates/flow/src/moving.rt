// Stages 1 to 4 of one cell, written where they belong.
ghost use Rattle.std.specs.Prelude.{◌≡◌, true, List, [], ℕ, ◌+◌, ◌*◌, ◌≤◌, ℤ, pos, nat_abs, length, get_or, replicate};
ghost use Rattle.whole.specs.Fold.{tab};
ghost use Rattle.lattice.specs.Lattice.{d3q19};
ghost use Rattle.lattice.specs.inner.Held.{parts_of, Bounded, Tame, steady_flow};
ghost use Rattle.lattice.specs.Body.{body_good};
ghost use Rattle.turbulence.specs.inner.Post.{Keeps};
ghost use Rattle.grid.specs.State.{liquid};
ghost use Rattle.grid.specs.Step.{streamed};
ghost use Rattle.grid.specs.Outcome.{settings_good};
ghost use Rattle.grid.specs.inner.Pasted.{pasted};
ghost use Rattle.grid.specs.inner.Sight.{box_sight};
ghost use Rattle.flow.specs.inner.Gentle.{gentle, Follows};
ghost use Rattle.flow.specs.inner.PutAt.{PutAt, Putting};

use crate::relaxing::relaxation;
use crate::streaming::chosen;
use collision::collide::collided;
use collision::gravity::pulled;
use grid::cells::{own, paste};
use grid::kinds::is_liquid;
use lattice::directions::flow_of;
use lattice::moments::{speed_squared, steady, times};
use lattice::rules::{all_inside, all_zero};
use lattice::{Flow, Settings};

// Of a cell that passed stage 3's test: whether its new parts keep test 6's rules, and its density.
#[derive(Clone, Copy)]
pub struct Put {
    pub fair: bool,
    pub rho: i32,
}

// Whether a flow is so far below the limit of speed that its collision cannot reach it.
fn gentle(v: Flow) -> bool
    requires { Tame v }
    ensures { result ≡ gentle v }
{
    10 * speed_squared(v) <= times(v.rho, v.rho)
}

// Whether new parts keep test 6's rules, where v is the flow that they were collided at: only where that is near the limit are they added up.
// As lattice's `fair_parts`, which has other callers: with one alone it melts into the pass over all cells, and the parts stay in registers.
fn fair(f: [i32; 19], v: Flow) -> bool
    requires { Bounded f 1073741824 33554432 × (steady_flow v ≡ true) × Follows v f }
    ensures { result ≡ body_good d3q19 (parts_of f) }
{
    if gentle(v) {
        return all_inside(f);
    }
    all_inside(f) & steady(flow_of(f))
}

// Stages 3 and 4 of a liquid cell c into which f streamed; nothing where it fails stage 3's test.
fn put_moved(
    f: [i32; 19],
    parts2: &mut [i32],
    c: usize,
    g: Settings,
    keep: u64,
    surface: bool,
) -> Option<Put>
    requires { Bounded f 1572864 1572864 × (settings_good g ≡ true) × (19 * c + 19 ≤ length parts2.old) × Keeps (nat_abs g.p) keep }
    ensures { (flags : List ℕ) (parts : List ℤ) (fills off : List ℕ) (low : ℕ) → liquid (get_or flags c 3) ≡ true → f ≡ tab 19 (streamed (box_sight flags parts [] fills off low g) c) → PutAt (box_sight flags parts [] fills off low g) c parts2.old parts2.new result }
{
    let v = pulled(flow_of(f), g);
    if !steady(v) {
        return None;
    }
    let r = collided(f, v, relaxation(f, v, g, keep, surface));
    paste(parts2, 19 * c, r);
    Some(Put {
        fair: fair(r, v),
        rho: v.rho,
    })
}

// Zeros for cell c, which is dry. Where nothing is known of the second set, as in a single step, most dry cells have them already, and looking costs
// half of what writing does.
fn dry_out(parts2: &mut [i32], c: usize)
    requires { 19 * c + 19 ≤ length parts2.old }
    ensures { parts2.new ≡ pasted parts2.old (19 * c) (replicate 19 (pos 0)) }
{
    if !all_zero(own(parts2, c)) {
        paste(parts2, 19 * c, [0i32; 19]);
    }
}

// Stages 1 to 4 of cell c: zeros where it is not liquid; nothing where it fails stage 3's test.
pub fn put_parts(
    flags: &[u8],
    parts: &[i32],
    fills: &[u32],
    parts2: &mut [i32],
    mark: u8,
    off: &[usize; 19],
    from: &[usize; 19],
    low: usize,
    c: usize,
    g: Settings,
    keep: u64,
) -> Option<Put>
    requires { Putting flags.now parts.now fills.now parts2.old mark off.now from.now low c g keep }
    ensures { PutAt (box_sight flags.now parts.now [] fills.now off.now low g) c parts2.old parts2.new result }
{
    if is_liquid(flags[c]) {
        return put_moved(
            chosen(flags, parts, fills, mark, off, from, low, c),
            parts2,
            c,
            g,
            keep,
            flags[c] == 1,
        );
    }
    dry_out(parts2, c);
    Some(Put { fair: true, rho: 0 })
}
