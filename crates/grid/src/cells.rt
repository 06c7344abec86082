// Nineteen parts of a cell, read from a list of parts and put into one.
ghost use Rattle.std.specs.Prelude.{◌≡◌, ℕ, ◌+◌, ◌*◌, ◌≤◌, pos, length, get_or};
ghost use Rattle.whole.specs.Fold.{tab};
ghost use Rattle.grid.specs.inner.Pasted.{pasted};

// The parts of cell c.
pub fn own(parts: &[i32], c: usize) -> [i32; 19]
    requires { 19 * c + 19 ≤ length parts.now }
    ensures { result ≡ tab 19 (λ (k : ℕ). get_or parts.now (19 * c + k) (pos 0)) }
{
    let mut v = [0i32; 19];
    // One by one: what is copied as a slice goes through memory, and the check takes a third longer.
    for k in 0..19 {
        v[k] = parts[19 * c + k];
    }
    v
}

// v is written from at on.
pub fn paste(out: &mut [i32], at: usize, v: [i32; 19])
    requires { at + 19 ≤ length out.old }
    ensures { out.new ≡ pasted out.old at v }
{
    out[at..at + 19].copy_from_slice(&v);
}
