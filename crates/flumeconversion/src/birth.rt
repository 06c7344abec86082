// Stage 5 in the flume: the parts of new interface cells, from means over the neighbours that were liquid. An idle place leads to the cell itself, which was
// empty and adds nothing.
ghost use Rattle.std.specs.Prelude.{◌≡◌, true, [], ◌+◌, ◌*◌, ◌<◌, ◌≤◌, length, get_or};
ghost use Rattle.grid.specs.State.{liquid};
ghost use Rattle.grid.specs.Step.{liquid_near};
ghost use Rattle.grid.specs.inner.Sight.{Around};
ghost use Rattle.conversion.specs.inner.Born.{Roomy, NewFlow, Added, Begins, newly_born};
ghost use Rattle.flumearrivals.specs.inner.Seen.{sight9};
ghost use Rattle.flumeconversion.specs.inner.Born.{Tested9, Fertile9, Placed9, Visited9, Peopled9};

use collision::gravity::pulled;
use conversion::birth::{Sum, is_newborn, joined, mean};
use flumeflow::streaming::streamed9;
use grid::kinds::is_liquid;
use lattice::directions::flow_of;
use lattice::rules::fair_parts;
use lattice::{Flow, Settings};
use nine::cells::paste9;
use nine::equilibrium::equilibrium9;
use walks::seeking::next_of;

// The flow of liquid cell b after stage 3.
fn flow_at9(
    flags: &[u8],
    parts: &[i32],
    fills: &[u32],
    off: &[usize; 19],
    low: usize,
    b: usize,
    g: Settings,
) -> Flow
    requires { Tested9 flags.now parts.now fills.now off.now low g × (b < length flags.now) × (liquid (get_or flags.now b 3) ≡ true) }
    ensures { NewFlow (sight9 flags.now parts.now [] fills.now off.now low g) b result }
{
    pulled(flow_of(streamed9(flags, parts, fills, off, low, b)), g)
}

// The sums with cell b, where it was liquid.
fn with_cell9(
    t: Sum,
    flags: &[u8],
    parts: &[i32],
    fills: &[u32],
    off: &[usize; 19],
    low: usize,
    b: usize,
    g: Settings,
) -> Sum
    requires { Tested9 flags.now parts.now fills.now off.now low g × (b < length flags.now) × Roomy t }
    ensures { Added (sight9 flags.now parts.now [] fills.now off.now low g) t b result }
{
    if is_liquid(flags[b]) {
        return joined(t, flow_at9(flags, parts, fills, off, low, b, g));
    }
    t
}

// The flow that empty cell c begins with: means over the neighbours that were liquid.
fn mean_flow9(
    flags: &[u8],
    parts: &[i32],
    fills: &[u32],
    off: &[usize; 19],
    low: usize,
    c: usize,
    g: Settings,
) -> Flow
    requires { Tested9 flags.now parts.now fills.now off.now low g × Around (length flags.now) off.now low c × (0 < liquid_near (sight9 flags.now parts.now [] fills.now off.now low g) c) }
    ensures { Begins (sight9 flags.now parts.now [] fills.now off.now low g) c result }
{
    let k = c - low;
    let mut t = Sum {
        n: 0,
        rho: 0,
        x: 0,
        y: 0,
        z: 0,
    };
    for i in 1..19 {
        t = with_cell9(t, flags, parts, fills, off, low, k + off[i], g);
    }
    mean(t)
}

// The parts that empty cell c begins with, written where they belong; whether they keep the rules of a liquid cell.
fn put_born9(
    flags: &[u8],
    parts: &[i32],
    fills: &[u32],
    parts2: &mut [i32],
    off: &[usize; 19],
    low: usize,
    c: usize,
    g: Settings,
) -> bool
    requires { Tested9 flags.now parts.now fills.now off.now low g × Around (length flags.now) off.now low c × (0 < liquid_near (sight9 flags.now parts.now [] fills.now off.now low g) c) × (9 * c + 9 ≤ length parts2.old) }
    ensures { Placed9 (sight9 flags.now parts.now [] fills.now off.now low g) c parts2.old parts2.new result }
{
    let v = equilibrium9(mean_flow9(flags, parts, fills, off, low, c, g));
    paste9(parts2, c, v);
    fair_parts(v)
}

// Cell c's parts, where it was empty and is interface; any other cell is fair as it is.
fn visit9(
    flags: &[u8],
    parts: &[i32],
    fills: &[u32],
    flags2: &[u8],
    parts2: &mut [i32],
    off: &[usize; 19],
    low: usize,
    c: usize,
    g: Settings,
) -> bool
    requires { Fertile9 flags.now parts.now fills.now off.now low g flags2.now × (c < length flags.now) × (length parts2.old ≡ 9 * length flags.now) }
    ensures { Visited9 (sight9 flags.now parts.now [] fills.now off.now low g) (newly_born flags.now flags2.now) c parts2.old parts2.new result }
{
    if is_newborn(flags[c], flags2[c]) {
        return put_born9(flags, parts, fills, parts2, off, low, c, g);
    }
    true
}

// The parts of every cell that was empty and is interface; whether all of them keep the rules of a liquid cell.
pub fn newborn9(
    flags: &[u8],
    parts: &[i32],
    fills: &[u32],
    flags2: &[u8],
    parts2: &mut [i32],
    off: &[usize; 19],
    low: usize,
    g: Settings,
) -> bool
    requires { Fertile9 flags.now parts.now fills.now off.now low g flags2.now × (length parts2.old ≡ 9 * length flags.now) }
    ensures { Peopled9 (sight9 flags.now parts.now [] fills.now off.now low g) (newly_born flags.now flags2.now) (length flags.now) parts2.old parts2.new result }
{
    let mut fair = true;
    let mut c = 0;
    // From one interface cell to the next: no range says that.
    while c < flags.len() {
        fair = fair & visit9(flags, parts, fills, flags2, parts2, off, low, c, g);
        c = next_of(flags2, c + 1, 1);
    }
    fair
}
