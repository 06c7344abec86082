// Test 5 of a flume: no fluid cell has an empty neighbour. By offsets; an idle neighbour is the fluid cell itself.
ghost use Rattle.std.specs.Prelude.{◌≡◌};
ghost use Rattle.grid.specs.Good.{bad_fluid};
ghost use Rattle.grid.specs.State.{flag_of};
ghost use Rattle.flume.specs.Flume.{flume_grid};
ghost use Rattle.flumegrid.specs.inner.Layer.{FlumeFlagged};

use crate::neighbours;
use checks::fluid::first_open_by;
use flume::FlumeSides;

// The lowest-numbered fluid cell that has an empty neighbour; N if there is none.
pub fn first_open(flags: &[u8], s: FlumeSides) -> usize
    requires { FlumeFlagged s flags.now }
    ensures { result ≡ bad_fluid 8 (flume_grid s) (flag_of flags.now) }
{
    let off = neighbours::offsets(s);
    let low = neighbours::low_of(s);
    first_open_by(flags, &off, low)
}
