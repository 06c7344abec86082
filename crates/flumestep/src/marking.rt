// Pass 0 in the flume.
ghost use Rattle.std.specs.Prelude.{◌≡◌, true, length};
ghost use Rattle.whole.specs.Fold.{tab};
ghost use Rattle.grid.specs.inner.Passes.{opened_by};
ghost use Rattle.flume.specs.Flume.{flume_sides_good, flume_cells};
ghost use Rattle.flume.specs.inner.Offsets.{flume_low, flume_offset};

use flume::FlumeSides;
use flumegrid::neighbours;
use flumemarks::marks;

// Marks 1 at fluid cells with no wall beside them.
pub(crate) fn mark_open(flags: &[u8], marks: &mut [u8], s: FlumeSides)
    requires { (flume_sides_good s ≡ true) × (length flags.now ≡ flume_cells s) × (length marks.old ≡ flume_cells s) }
    ensures { marks.new ≡ tab (length flags.now) (opened_by flags.now marks.old (tab 19 (flume_offset s)) (flume_low s)) }
{
    let off = neighbours::offsets(s);
    let low = neighbours::low_of(s);
    marks::mark_open9(flags, marks, &off, low);
}
