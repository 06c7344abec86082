// Nine parts of a cell, read from a list of parts into the nineteen places, and put back.
ghost use Rattle.std.specs.Prelude.{◌≡◌, ℕ, ◌+◌, ◌*◌, ◌<◌, ◌≤◌, pos, length, get_or};
ghost use Rattle.whole.specs.Fold.{tab};
ghost use Rattle.flume.specs.inner.Spread.{wide, spread};
ghost use Rattle.nine.specs.inner.Cells.{pasted9, Quiet};

// The place of direction k.
pub fn place(k: usize) -> usize
    requires { k < 9 }
    ensures { (result ≡ wide k) × (result < 19) }
{
    if k < 3 {
        return k;
    }
    if k < 5 {
        return k + 2;
    }
    k + 10
}

// The parts of cell c at their places, 0 at the idle ones.
pub fn own9(parts: &[i32], c: usize) -> [i32; 19]
    requires { 9 * c + 9 ≤ length parts.now }
    ensures { result ≡ tab 19 (spread (pos 0) (λ (k : ℕ). get_or parts.now (9 * c + k) (pos 0))) }
{
    let mut v = [0i32; 19];
    for k in 0..9 {
        v[place(k)] = parts[9 * c + k];
    }
    v
}

// The nine parts of v become those of cell c.
pub fn paste9(out: &mut [i32], c: usize, v: [i32; 19])
    requires { 9 * c + 9 ≤ length out.old }
    ensures { out.new ≡ pasted9 out.old c v }
{
    for k in 0..9 {
        out[9 * c + k] = v[place(k)];
    }
}

// The same parts with the idle places written as 0 again: the compiler then knows that they are, and drops what is done with them. Where parts come
// from a call it cannot tell.
pub fn quieted(v: [i32; 19]) -> [i32; 19]
    requires { Quiet v }
    ensures { result ≡ v }
{
    let mut r = [0i32; 19];
    for k in 0..9 {
        r[place(k)] = v[place(k)];
    }
    r
}
