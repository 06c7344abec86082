// The lines: each point's kind and depth, and the deepest point on the way.
ghost use Rattle.std.specs.Prelude.{◌≡◌};
ghost use Rattle.profile.specs.inner.Lines.{best_of, Ready, Written};

use crate::kinds;
use profile::{Best, Frame, points};
use tunnel::{answers, exact};

// A deeper point takes its place; one as deep does not.
fn better(b: Best, sum: usize, i: usize) -> Best
    ensures { result ≡ best_of b sum i }
{
    if b.sum < sum {
        return Best { at: i, sum };
    }
    b
}

// The lines of a list that has passed its tests. Answers the deepest point, the number of points if none is wet.
pub(crate) fn written(
    f: Frame,
    flags: &[u8],
    fills: &[u32],
    points: &[i64],
    kinds: &mut [u8],
    depths: &mut [f32],
    m: usize,
) -> usize
    requires { Ready f points.now kinds.old depths.old m }
    ensures { Written f flags.now fills.now points.now m result kinds.new depths.new }
{
    let mut best = Best { at: m, sum: 0 };
    for i in 0..m {
        let a = points::look(f, flags, fills, points, i);
        let depth = answers::depth_value(a);
        kinds[i] = kinds::kind(a);
        depths[i] = depth;
        best = better(best, exact::shares(depth), i);
    }
    best.at
}
