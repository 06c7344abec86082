// Where a reflection takes the flume's directions.
ghost use Rattle.std.specs.Prelude.{◌≡◌, true};
ghost use Rattle.whole.specs.Fold.{tab};
ghost use Rattle.lattice.specs.Lattice.{d2q9};
ghost use Rattle.mirroring.specs.inner.Between.{dir_in};
ghost use Rattle.flumemirroring.specs.Outcome.{flume_axis};

// The reflected directions, 0 to 8; what stands behind them is not looked at.
pub(crate) fn directions9(axis: usize) -> [usize; 19]
    requires { flume_axis axis ≡ true }
    ensures { result ≡ tab 19 (dir_in d2q9 axis) }
{
    if axis == 0 {
        return [0, 2, 1, 3, 4, 8, 7, 6, 5, 0, 0, 0, 0, 0, 0, 0, 0, 0, 0];
    }
    [0, 1, 2, 4, 3, 7, 8, 5, 6, 0, 0, 0, 0, 0, 0, 0, 0, 0, 0]
}
