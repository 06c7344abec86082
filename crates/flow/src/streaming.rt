// Stage 1: the parts that stream into a cell.
ghost use Rattle.std.specs.Prelude.{◌≡◌, true, List, [], ℕ, ◌+◌, ◌<◌, pos, length, get_or};
ghost use Rattle.whole.specs.Fold.{tab};
ghost use Rattle.lattice.specs.declared.Settings.{Settings};
ghost use Rattle.grid.specs.State.{liquid};
ghost use Rattle.grid.specs.Step.{streamed};
ghost use Rattle.grid.specs.inner.Sight.{box_sight, Bodied, Around};
ghost use Rattle.arrivals.specs.inner.Sources.{Mirrored, source_of, Immersed, Enclosed};
ghost use Rattle.arrivals.specs.inner.Trade.{Fills};

use arrivals::streaming::{arriving, leaning, source};
use grid::cells::own;
use lattice::directions::{dots, flow_of};

// Where part i that streams straight into a cell lies, counted from the first part of the cell c - low.
pub fn sources(off: [usize; 19], low: usize) -> [usize; 19]
    requires { Mirrored off low }
    ensures { result ≡ tab 19 (source_of off) }
{
    let mut f = [0; 19];
    for i in 0..19 {
        f[i] = 19 * (low + low - off[i]) + i;
    }
    f
}

// The parts that stream into a cell with liquid all around, a being the first part of the cell c - low.
fn streamed_open(parts: &[i32], from: &[usize; 19], a: usize) -> [i32; 19]
    requires { (i : ℕ) → i < 19 → a + get_or from.now i 0 < length parts.now }
    ensures { result ≡ tab 19 (λ (i : ℕ). get_or parts.now (a + get_or from.now i 0) (pos 0)) }
{
    let here = &parts[a..];
    let mut f = [0i32; 19];
    for i in 0..19 {
        f[i] = here[from[i]];
    }
    f
}

// The parts that stream into a fluid cell, which has no empty cell beside it: walls send its own back.
fn reflected(flags: &[u8], parts: &[i32], off: &[usize; 19], low: usize, c: usize) -> [i32; 19]
    requires { Bodied flags.now parts.now × Around (length flags.now) off.now low c × (get_or flags.now c 3 ≡ 2) × Enclosed flags.now off.now low c }
    ensures { (fills : List ℕ) (g : Settings) → result ≡ tab 19 (streamed (box_sight flags.now parts.now [] fills off.now low g) c) }
{
    let k = c - low;
    let mut f = [0i32; 19];
    f[0] = parts[19 * c];
    for pair in 0..9 {
        let i = 2 * pair + 1;
        f[i + 1] = parts[source(flags, c, k + off[i], i, i + 1)];
        f[i] = parts[source(flags, c, k + off[i + 1], i + 1, i)];
    }
    f
}

// The parts that stream into a liquid cell, by whatever lies beside it. By pairs, so that the loop unrolls whole.
fn rebuilt(
    flags: &[u8],
    parts: &[i32],
    fills: &[u32],
    off: &[usize; 19],
    low: usize,
    c: usize,
) -> [i32; 19]
    requires { Bodied flags.now parts.now × Fills flags.now fills.now × Around (length flags.now) off.now low c × (liquid (get_or flags.now c 3) ≡ true) }
    ensures { (g : Settings) → result ≡ tab 19 (streamed (box_sight flags.now parts.now [] fills.now off.now low g) c) }
{
    let k = c - low;
    let v = flow_of(own(parts, c));
    let d = dots(v);
    let n = leaning(flags, fills, off, low, c);
    let mut f = [0i32; 19];
    f[0] = parts[19 * c];
    for pair in 0..9 {
        let i = 2 * pair + 1;
        f[i + 1] = arriving(flags, parts, c, k + off[i], i, i + 1, v, d[i], n[i]);
        f[i] = arriving(
            flags,
            parts,
            c,
            k + off[i + 1],
            i + 1,
            i,
            v,
            d[i + 1],
            n[i + 1],
        );
    }
    f
}

// The parts that stream into a liquid cell.
pub fn streamed(
    flags: &[u8],
    parts: &[i32],
    fills: &[u32],
    off: &[usize; 19],
    low: usize,
    c: usize,
) -> [i32; 19]
    requires { Bodied flags.now parts.now × Fills flags.now fills.now × Around (length flags.now) off.now low c × (liquid (get_or flags.now c 3) ≡ true) × Enclosed flags.now off.now low c }
    ensures { (g : Settings) → result ≡ tab 19 (streamed (box_sight flags.now parts.now [] fills.now off.now low g) c) }
{
    if flags[c] == 2 {
        return reflected(flags, parts, off, low, c);
    }
    rebuilt(flags, parts, fills, off, low, c)
}

// The same by a call of its own, so that what is lent to it is written down for the cells alone that take this way.
fn streamed_beside(
    flags: &[u8],
    parts: &[i32],
    fills: &[u32],
    off: &[usize; 19],
    low: usize,
    c: usize,
) -> [i32; 19]
    requires { Bodied flags.now parts.now × Fills flags.now fills.now × Around (length flags.now) off.now low c × (liquid (get_or flags.now c 3) ≡ true) × Enclosed flags.now off.now low c }
    ensures { (g : Settings) → result ≡ tab 19 (streamed (box_sight flags.now parts.now [] fills.now off.now low g) c) }
{
    streamed(flags, parts, fills, off, low, c)
}

// The same, the short way where the mark of pass 0 says that the cell has liquid all around.
pub(crate) fn chosen(
    flags: &[u8],
    parts: &[i32],
    fills: &[u32],
    mark: u8,
    off: &[usize; 19],
    from: &[usize; 19],
    low: usize,
    c: usize,
) -> [i32; 19]
    requires { Bodied flags.now parts.now × Fills flags.now fills.now × Around (length flags.now) off.now low c × (liquid (get_or flags.now c 3) ≡ true) × Mirrored off.now low × (from.now ≡ tab 19 (source_of off.now)) × (mark ≡ 1 → Immersed flags.now off.now low c) × Enclosed flags.now off.now low c }
    ensures { (g : Settings) → result ≡ tab 19 (streamed (box_sight flags.now parts.now [] fills.now off.now low g) c) }
{
    if mark == 1 {
        return streamed_open(parts, from, 19 * (c - low));
    }
    streamed_beside(flags, parts, fills, off, low, c)
}
