// Whether every estimate of a cell tells.
ghost use Rattle.std.specs.Prelude.{◌≡◌, ℕ, suc, ◌%◌, ◌<◌, ◌≤◌, get_or};
ghost use Rattle.whole.specs.Fold.{all};
ghost use Rattle.lattice.specs.inner.Held.{parts_of};
ghost use Rattle.landings.specs.inner.Estimate.{Mixes, tells_at};

use landings::landing::{high, higher, tells};

// Whether each of a cell's eighteen estimates tells: asked of all, with no branch between them.
pub fn telling(e: [u64; 18], f: [i32; 19], c: i32) -> bool
    requires { (k : ℕ) → k < 18 → Mixes (get_or e k 0) (parts_of f (suc k)) c }
    ensures { result ≡ all 18 (tells_at e f c) }
{
    let mut w = true;
    for k in 0..18 {
        w = w & tells(e[k], f[k + 1], c);
    }
    w
}

// The highest low word, by which the flume asks whether an end lies just below a whole number. As a tree: one after the other would be branches on some processors.
pub fn highest(e: [u64; 18]) -> u32
    ensures { (k : ℕ) → k < 18 → get_or e k 0 % 4294967296 ≤ result }
{
    let a = high(higher(e[0], e[1]), higher(e[2], e[3]));
    let b = high(higher(e[4], e[5]), higher(e[6], e[7]));
    let c = high(higher(e[8], e[9]), higher(e[10], e[11]));
    let d = high(higher(e[12], e[13]), higher(e[14], e[15]));
    high(high(high(a, b), high(c, d)), higher(e[16], e[17]))
}
