// One slice's content put into another of its length, and the same byte everywhere.
ghost use Rattle.std.specs.Prelude.{◌≡◌, length, replicate};

// Element by element: the slices' own `copy_from_slice` would ask memmove of whoever links with the library.
pub fn copy<T: Copy>(src: &[T], dst: &mut [T])
    requires { length dst.old ≡ length src.now }
    ensures { dst.new ≡ src.now }
{
    for i in 0..src.len() {
        dst[i] = src[i];
    }
}

// The same byte in every cell.
pub fn put_all(bytes: &mut [u8], b: u8)
    ensures { bytes.new ≡ replicate (length bytes.old) b }
{
    bytes.fill(b);
}

// Marks are 0 when a step is over.
pub fn clear(marks: &mut [u8])
    ensures { marks.new ≡ replicate (length marks.old) 0 }
{
    marks.fill(0);
}
