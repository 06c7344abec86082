// The chainage profile.
ghost use Rattle.profile.specs.Profile.{survey};
ghost use Rattle.hosttunnel.specs.Promise.{frame_of, ProfileTold};

use grid::Sides;
use profile::Frame;
use profiled::{answers, asking};
use tunnel::Point;

// A line for each survey point along the gutter, and the deepest point, where one is wet.
#[unsafe(no_mangle)]
pub extern "C" fn skw_profile(
    nx: usize,
    ny: usize,
    nz: usize,
    edge: i64,
    ox: i64,
    oy: i64,
    oz: i64,
    flags: &[u8],
    fills: &[u32],
    chainages: &[i64],
    points: &[i64],
    kinds: &mut [u8],
    depths: &mut [f32],
    wet: &mut u8,
    deepest: &mut usize,
    place: &mut usize,
) -> u8
    ensures { ProfileTold (survey (frame_of nx ny nz edge ox oy oz) flags.now fills.now points.now) chainages.now kinds.old depths.old result place.new wet.new deepest.new kinds.new depths.new }
{
    let sides = Sides { nx, ny, nz };
    let origin = Point {
        x: ox,
        y: oy,
        z: oz,
    };
    let f = Frame {
        sides,
        edge,
        origin,
    };
    let a = asking::profile(f, flags, fills, chainages, points, kinds, depths);
    *wet = answers::wet(a);
    *deepest = answers::deepest(a);
    *place = answers::place(a);
    answers::number(a)
}
