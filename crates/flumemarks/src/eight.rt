// Whether a byte stands beside a cell of the flume.
ghost use Rattle.std.specs.Prelude.{◌≡◌};
ghost use Rattle.grid.specs.inner.Passes.{Reach};
ghost use Rattle.flumemarks.specs.inner.Eight.{beside_eight};

// Whether the byte of one of the eight neighbours is m; k is c - low. All in a row, so that the passes above run many cells at a time.
pub fn beside9(bytes: &[u8], off: &[usize; 19], k: usize, m: u8) -> bool
    requires { Reach bytes.now off.now k }
    ensures { result ≡ beside_eight bytes.now off.now k m }
{
    (bytes[k + off[1]] == m)
        | (bytes[k + off[2]] == m)
        | (bytes[k + off[5]] == m)
        | (bytes[k + off[6]] == m)
        | (bytes[k + off[15]] == m)
        | (bytes[k + off[16]] == m)
        | (bytes[k + off[17]] == m)
        | (bytes[k + off[18]] == m)
}
