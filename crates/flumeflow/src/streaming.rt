// Stage 1: the parts that stream into a cell. By the eight directions: nothing is looked at, and nothing arrives, at an idle place.
ghost use Rattle.std.specs.Prelude.{◌≡◌, true, [], ℕ, ◌+◌, ◌<◌, pos, length, get_or};
ghost use Rattle.whole.specs.Fold.{tab};
ghost use Rattle.lattice.specs.declared.Settings.{Settings};
ghost use Rattle.grid.specs.State.{liquid};
ghost use Rattle.grid.specs.Step.{streamed};
ghost use Rattle.grid.specs.inner.Sight.{Around};
ghost use Rattle.arrivals.specs.inner.Sources.{Mirrored, Immersed};
ghost use Rattle.arrivals.specs.inner.Trade.{Fills};
ghost use Rattle.flume.specs.inner.Spread.{spread};
ghost use Rattle.flumearrivals.specs.inner.Seen.{sight9, Bodied9, source_of9};

use arrivals::streaming::leaning;
use flumearrivals::streaming::arriving9;
use lattice::directions::{dots, flow_of};
use nine::cells::{own9, place};

// Where part k that streams straight into a cell lies, counted from the first part of the cell c - low.
pub fn sources9(off: [usize; 19], low: usize) -> [usize; 9]
    requires { Mirrored off low }
    ensures { result ≡ tab 9 (source_of9 off) }
{
    let mut f = [0; 9];
    for k in 0..9 {
        f[k] = 9 * (low + low - off[place(k)]) + k;
    }
    f
}

// The parts that stream into a cell with liquid all around, a being the first part of the cell c - low.
fn streamed_open9(parts: &[i32], from: &[usize; 9], a: usize) -> [i32; 19]
    requires { (k : ℕ) → k < 9 → a + get_or from.now k 0 < length parts.now }
    ensures { result ≡ tab 19 (spread (pos 0) (λ (k : ℕ). get_or parts.now (a + get_or from.now k 0) (pos 0))) }
{
    let mut f = [0i32; 19];
    for k in 0..9 {
        f[place(k)] = parts[a + from[k]];
    }
    f
}

// The parts that stream into a liquid cell, at their places. By pairs, so that the loop unrolls whole.
pub fn streamed9(
    flags: &[u8],
    parts: &[i32],
    fills: &[u32],
    off: &[usize; 19],
    low: usize,
    c: usize,
) -> [i32; 19]
    requires { Bodied9 flags.now parts.now × Fills flags.now fills.now × Around (length flags.now) off.now low c × (liquid (get_or flags.now c 3) ≡ true) }
    ensures { (g : Settings) → result ≡ tab 19 (streamed (sight9 flags.now parts.now [] fills.now off.now low g) c) }
{
    let b = c - low;
    let v = flow_of(own9(parts, c));
    let d = dots(v);
    let n = leaning(flags, fills, off, low, c);
    let mut f = [0i32; 19];
    f[0] = parts[9 * c];
    for pair in 0..4 {
        let k = 2 * pair + 1;
        let i = place(k);
        f[i + 1] = arriving9(flags, parts, c, b + off[i], i, k, k + 1, v, d[i], n[i]);
        f[i] = arriving9(
            flags,
            parts,
            c,
            b + off[i + 1],
            i + 1,
            k + 1,
            k,
            v,
            d[i + 1],
            n[i + 1],
        );
    }
    f
}

// The same, the short way where the mark of pass 0 says that the cell has liquid all around.
pub(crate) fn chosen9(
    flags: &[u8],
    parts: &[i32],
    fills: &[u32],
    mark: u8,
    off: &[usize; 19],
    from: &[usize; 9],
    low: usize,
    c: usize,
) -> [i32; 19]
    requires { Bodied9 flags.now parts.now × Fills flags.now fills.now × Around (length flags.now) off.now low c × (liquid (get_or flags.now c 3) ≡ true) × Mirrored off.now low × (from.now ≡ tab 9 (source_of9 off.now)) × (mark ≡ 1 → Immersed flags.now off.now low c) }
    ensures { (g : Settings) → result ≡ tab 19 (streamed (sight9 flags.now parts.now [] fills.now off.now low g) c) }
{
    if mark == 1 {
        return streamed_open9(parts, from, 9 * (c - low));
    }
    streamed9(flags, parts, fills, off, low, c)
}
