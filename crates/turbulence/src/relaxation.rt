// The cell's own relaxation from its tension T. Both roots are most often needed only nearly: one step above each and a bound below each that give
// the same p decide it, and where they do not the roots are worked out whole.
ghost use Rattle.std.specs.Prelude.{◌≡◌, ◌⊎◌, true, ◌+◌, ◌<◌, ◌≤◌, nat_abs};
ghost use Rattle.lattice.specs.Lattice.{d3q19};
ghost use Rattle.lattice.specs.Cell.{relaxation_good};
ghost use Rattle.lattice.specs.inner.Held.{parts_of, Bounded, vec, steady_flow};
ghost use Rattle.turbulence.specs.Turbulence.{under, divisor, nearest, own, own_relaxation};
ghost use Rattle.turbulence.specs.inner.Post.{Keeps};

use crate::root::{above, root};
use crate::stress::{beyond, tension};
use lattice::Flow;

fn under(p: u64, s: u64) -> u64
    requires { (0 < p) × (p ≤ 2037) × (s ≤ 1073741824) }
    ensures { (result ≡ under p s) × (0 < result) × (result < 1152921504606846976) }
{
    let a = 12800 * (2048 - p);
    a * a + 162 * (p * p) * s
}

fn divisor(p: u64, r: u64) -> u64
    requires { (p ≤ 2037) × (r ≤ 1073741824) }
    ensures { (result ≡ divisor p r) × (131072000 ≤ result) × (result ≤ 1300000000) }
{
    12800 * (10240 + p) + r
}

fn nearest(p: u64, d: u64) -> u64
    requires { (p ≤ 2037) × (131072000 ≤ d) × (d ≤ 1300000000) }
    ensures { (result ≡ nearest p d) × (result ≤ 4096) }
{
    (314572800 * p + d) / (2 * d)
}

// Own p by both roots.
fn by_roots(p: u64, t: u64) -> u64
    requires { (0 < p) × (p ≤ 2037) × (t < 1152921504606846976) }
    ensures { result ≡ own p t }
{
    let o = nearest(p, divisor(p, root(under(p, root(t)))));
    if o < 1 {
        return 1;
    }
    o
}

// Own p by bounds of both roots, or 0 where they do not decide it. The lower bounds are one part in 4,096 below the upper ones, more than a step of
// Newton's from a good guess misses by, and own p hardly moves between them: up to T of 2^32 one cell in thirty is left, one in eight at the largest T.
fn by_bounds(p: u64, t: u64) -> u64
    requires { (0 < p) × (p ≤ 2037) × (0 < t) × (t < 1152921504606846976) }
    ensures { (result ≡ 0) ⊎ (result ≡ own p t) }
{
    let s = above(t);
    let low = s - (s >> 12);
    if t < low * low {
        return 0;
    }
    let r = above(under(p, s));
    let least = r - (r >> 12);
    if under(p, low) < least * least {
        return 0;
    }
    let o = nearest(p, divisor(p, r));
    let d = divisor(p, least);
    if 2 * (o + 1) * d <= 314572800 * p + d {
        return 0;
    }
    o
}

// Own p of a cell with tension t: no tension keeps p.
pub fn own(p: u64, t: u64) -> u64
    requires { (0 < p) × (p ≤ 2037) × (t < 1152921504606846976) }
    ensures { result ≡ own p t }
{
    if t == 0 {
        return p;
    }
    let o = by_bounds(p, t);
    if o == 0 {
        return by_roots(p, t);
    }
    o
}

// k, or k + d where that tension keeps p too.
fn raised(p: u64, k: u64, d: u64) -> u64
    requires { (0 < p) × (p ≤ 2037) × (k + d < 1152921504606846976) × Keeps p k }
    ensures { Keeps p result × (result ≤ k + d) }
{
    if own(p, k + d) == p {
        return k + d;
    }
    k
}

// A tension that keeps p, and so does any below it. Fifty binary digits make it the largest; nothing but time depends on that.
pub fn kept(p: u64) -> u64
    requires { (0 < p) × (p ≤ 2037) }
    ensures { Keeps p result }
{
    let mut k = 0;
    let mut d = 562949953421312;
    while d > 0 {
        k = raised(p, k, d);
        d = d / 2;
    }
    k
}

// The same as `own`, where the tensions up to `keep` keep p: in calm water no root is worked out, and the collision need not wait for one.
pub fn own_from(p: u64, t: u64, keep: u64) -> u64
    requires { (0 < p) × (p ≤ 2037) × (t < 1152921504606846976) × Keeps p keep }
    ensures { result ≡ own p t }
{
    if t <= keep {
        return p;
    }
    own(p, t)
}

// Own p of a cell that has passed stage 3's test; keep is `kept` of p.
pub fn own_relaxation(f: [i32; 19], v: Flow, p: i64, keep: u64) -> i64
    requires { Bounded f 1572864 1572864 × (steady_flow v ≡ true) × (relaxation_good p ≡ true) × Keeps (nat_abs p) keep }
    ensures { (result ≡ own_relaxation d3q19 v.rho (vec v) p (parts_of f)) × (relaxation_good result ≡ true) }
{
    own_from(p as u64, tension(beyond(f, v)), keep) as i64
}
