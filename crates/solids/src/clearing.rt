// Lent slices made all 0.
ghost use Rattle.std.specs.Prelude.{◌≡◌, pos, length, replicate};

// Parts, or masses.
pub fn clear_waters(s: &mut [i32])
    ensures { s.new ≡ replicate (length s.old) (pos 0) }
{
    s.fill(0);
}

pub fn clear_fills(s: &mut [u32])
    ensures { s.new ≡ replicate (length s.old) 0 }
{
    s.fill(0);
}

// Carry, poured and taken.
pub fn clear_totals(s: &mut [i64])
    ensures { s.new ≡ replicate (length s.old) (pos 0) }
{
    s.fill(0);
}

// The index's words, or its count.
pub fn clear_words(s: &mut [u64])
    ensures { s.new ≡ replicate (length s.old) 0 }
{
    s.fill(0);
}
