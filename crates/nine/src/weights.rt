// The flume's weights at the nineteen places: by a test, as the box's.
ghost use Rattle.std.specs.Prelude.{◌≡◌, ◌<◌, pos};
ghost use Rattle.flume.specs.inner.Spread.{spread_lattice};

// The weight of place i of 1..18, in 36ths; 0 for an idle one.
pub fn weight9(i: usize) -> i64
    requires { (0 < i) × (i < 19) }
    ensures { result ≡ pos (spread_lattice.weight i) }
{
    if i < 3 {
        return 4; // along x
    }
    if i < 5 {
        return 0;
    }
    if i < 7 {
        return 4; // along z
    }
    if i < 15 {
        return 0;
    }
    1
}
