// Stage 5: the parts of new interface cells, from means over the neighbours that were liquid.
ghost use Rattle.std.specs.Prelude.{◌≡◌, true, ◌&&◌, [], ◌+◌, ◌*◌, ◌<◌, ◌≤◌, eqb, pos, ◌+ℤ◌, length, get_or, ◌<ℤ◌};
ghost use Rattle.std.specs.Int.Signed.{quot_z};
ghost use Rattle.whole.specs.Fold.{tab};
ghost use Rattle.whole.specs.laws.Machine.{Within};
ghost use Rattle.grid.specs.Grid.{sides_good};
ghost use Rattle.grid.specs.inner.Passes.{low_of, offset_of};
ghost use Rattle.grid.specs.State.{liquid};
ghost use Rattle.grid.specs.Step.{liquid_near};
ghost use Rattle.grid.specs.inner.Sight.{Around, box_sight};
ghost use Rattle.conversion.specs.inner.Born.{Tested, Roomy, NewFlow, Joined, Added, Countable, Meant, Begins, Placed, Fertile, Visited, Peopled, newly_born};

use collision::equilibrium::equilibrium;
use collision::gravity::pulled;
use flow::streaming::streamed;
use grid::Sides;
use grid::cells::paste;
use grid::kinds::is_liquid;
use grid::neighbours::{low_of, offsets};
use lattice::directions::flow_of;
use lattice::rules::fair_parts;
use lattice::{Flow, Settings};
use walks::seeking::next_of;
use whole::wide;

// How many cells, and the sums of their density and momentum.
#[derive(Clone, Copy)]
pub struct Sum {
    pub n: i64,
    pub rho: i64,
    pub x: i64,
    pub y: i64,
    pub z: i64,
}

// The flow of liquid cell b after stage 3.
fn flow_at(
    flags: &[u8],
    parts: &[i32],
    fills: &[u32],
    off: &[usize; 19],
    low: usize,
    b: usize,
    g: Settings,
) -> Flow
    requires { Tested flags.now parts.now fills.now off.now low g × (b < length flags.now) × (liquid (get_or flags.now b 3) ≡ true) }
    ensures { NewFlow (box_sight flags.now parts.now [] fills.now off.now low g) b result }
{
    pulled(flow_of(streamed(flags, parts, fills, off, low, b)), g)
}

fn plus(a: i64, b: i32) -> i64
    requires { Within a 1000000000000 }
    ensures { result ≡ a +ℤ b }
{
    a + wide(b)
}

// The sums with one cell more, of flow v.
pub fn joined(t: Sum, v: Flow) -> Sum
    requires { Roomy t }
    ensures { Joined t v result }
{
    Sum {
        n: plus(t.n, 1),
        rho: plus(t.rho, v.rho),
        x: plus(t.x, v.x),
        y: plus(t.y, v.y),
        z: plus(t.z, v.z),
    }
}

// The sums with cell b, where it was liquid.
fn with_cell(
    t: Sum,
    flags: &[u8],
    parts: &[i32],
    fills: &[u32],
    off: &[usize; 19],
    low: usize,
    b: usize,
    g: Settings,
) -> Sum
    requires { Tested flags.now parts.now fills.now off.now low g × (b < length flags.now) × Roomy t }
    ensures { Added (box_sight flags.now parts.now [] fills.now off.now low g) t b result }
{
    if is_liquid(flags[b]) {
        return joined(t, flow_at(flags, parts, fills, off, low, b, g));
    }
    t
}

fn cut_mean(sum: i64, n: i64) -> i32
    requires { (pos 0 <ℤ n) × Within sum 21233664 }
    ensures { result ≡ quot_z sum n }
{
    (sum / n) as i32
}

// The means. A density is never negative, so that the cut mean is the floor.
pub fn mean(t: Sum) -> Flow
    requires { Countable t }
    ensures { Meant t result }
{
    Flow {
        rho: cut_mean(t.rho, t.n),
        x: cut_mean(t.x, t.n),
        y: cut_mean(t.y, t.n),
        z: cut_mean(t.z, t.n),
    }
}

// The flow that empty cell c begins with: means over the neighbours that were liquid.
fn mean_flow(
    flags: &[u8],
    parts: &[i32],
    fills: &[u32],
    off: &[usize; 19],
    low: usize,
    c: usize,
    g: Settings,
) -> Flow
    requires { Tested flags.now parts.now fills.now off.now low g × Around (length flags.now) off.now low c × (0 < liquid_near (box_sight flags.now parts.now [] fills.now off.now low g) c) }
    ensures { Begins (box_sight flags.now parts.now [] fills.now off.now low g) c result }
{
    let k = c - low;
    let mut t = Sum {
        n: 0,
        rho: 0,
        x: 0,
        y: 0,
        z: 0,
    };
    for i in 1..19 {
        t = with_cell(t, flags, parts, fills, off, low, k + off[i], g);
    }
    mean(t)
}

// The parts that empty cell c begins with, written where they belong; whether they keep the rules of a liquid cell.
fn put_born(
    flags: &[u8],
    parts: &[i32],
    fills: &[u32],
    parts2: &mut [i32],
    off: &[usize; 19],
    low: usize,
    c: usize,
    g: Settings,
) -> bool
    requires { Tested flags.now parts.now fills.now off.now low g × Around (length flags.now) off.now low c × (0 < liquid_near (box_sight flags.now parts.now [] fills.now off.now low g) c) × (19 * c + 19 ≤ length parts2.old) }
    ensures { Placed (box_sight flags.now parts.now [] fills.now off.now low g) c parts2.old parts2.new result }
{
    let v = equilibrium(mean_flow(flags, parts, fills, off, low, c, g));
    paste(parts2, 19 * c, v);
    fair_parts(v)
}

pub fn is_newborn(old: u8, new: u8) -> bool
    ensures { result ≡ (eqb old 0 && eqb new 1) }
{
    (old == 0) & (new == 1)
}

// Cell c's parts, where it was empty and is interface; any other cell is fair as it is.
fn visit(
    flags: &[u8],
    parts: &[i32],
    fills: &[u32],
    flags2: &[u8],
    parts2: &mut [i32],
    off: &[usize; 19],
    low: usize,
    c: usize,
    g: Settings,
) -> bool
    requires { Fertile flags.now parts.now fills.now off.now low g flags2.now × (c < length flags.now) × (length parts2.old ≡ 19 * length flags.now) }
    ensures { Visited (box_sight flags.now parts.now [] fills.now off.now low g) (newly_born flags.now flags2.now) c parts2.old parts2.new result }
{
    if is_newborn(flags[c], flags2[c]) {
        return put_born(flags, parts, fills, parts2, off, low, c, g);
    }
    true
}

// The parts of every cell that was empty and is interface; whether all of them keep the rules of a liquid cell.
pub(crate) fn newborn(
    flags: &[u8],
    parts: &[i32],
    fills: &[u32],
    flags2: &[u8],
    parts2: &mut [i32],
    s: Sides,
    g: Settings,
) -> bool
    requires { (sides_good s ≡ true) × Fertile flags.now parts.now fills.now (tab 19 (offset_of s)) (low_of s) g flags2.now × (length parts2.old ≡ 19 * length flags.now) }
    ensures { Peopled (box_sight flags.now parts.now [] fills.now (tab 19 (offset_of s)) (low_of s) g) (newly_born flags.now flags2.now) (length flags.now) parts2.old parts2.new result }
{
    let off = offsets(s);
    let low = low_of(s);
    let mut fair = true;
    let mut c = 0;
    // From one interface cell to the next: no range says that.
    while c < flags.len() {
        fair = fair & visit(flags, parts, fills, flags2, parts2, &off, low, c, g);
        c = next_of(flags2, c + 1, 1);
    }
    fair
}
