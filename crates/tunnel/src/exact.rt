// Exact f32: a whole number below 2^24, cast and divided by a power of two; and back, the number that it is.
ghost use Rattle.std.specs.Prelude.{◌+◌, ◌*◌, ◌<◌};
ghost use Rattle.tunnel.specs.Exact.{Exactly};
ghost use Rattle.tunnel.specs.inner.Parts.{Parts};

// (2x + 1)/2, the centre of cell x of an axis.
pub(crate) fn centre(x: usize) -> f32
    requires { x < 128 }
    ensures { Exactly result (2 * x + 1) 2 }
{
    (2 * x + 1) as f32 / 2.0
}

// n/65,536: a fill, or a sum of fills, in cells.
pub fn share(n: u32) -> f32
    requires { n < 16777216 }
    ensures { Exactly result n 65536 }
{
    n as f32 / 65536.0
}

// How many halves an exact f32 is: nothing is rounded, the number is the f32's own.
pub fn halves(x: f32) -> usize
    requires { Parts x 2 }
    ensures { Exactly x result 2 }
{
    (x * 2.0) as usize
}

// How many 65,536ths it is.
pub fn shares(x: f32) -> usize
    requires { Parts x 65536 }
    ensures { Exactly x result 65536 }
{
    (x * 65536.0) as usize
}
