// Depth of a column.
ghost use Rattle.tunnel.specs.Depth.{depth_of};
ghost use Rattle.host.specs.Given.{sides_of};
ghost use Rattle.hosttunnel.specs.Promise.{DepthTold};

use columns::column::column_depth;
use grid::Sides;
use tunnel::answers;

// The depth of column (x, y): kind 0 refused, 1 solid, 2 dry, 3 deep.
#[unsafe(no_mangle)]
pub extern "C" fn skw_depth(
    nx: usize,
    ny: usize,
    nz: usize,
    flags: &[u8],
    fills: &[u32],
    x: usize,
    y: usize,
    kind: &mut u8,
    depth: &mut f32,
    place: &mut usize,
) -> u8
    ensures { DepthTold (depth_of (sides_of nx ny nz) flags.now fills.now x y) result place.new kind.new depth.new }
{
    let s = Sides { nx, ny, nz };
    let a = column_depth(s, flags, fills, x, y);
    *kind = answers::depth_kind(a);
    *depth = answers::depth_value(a);
    *place = answers::depth_place(a);
    answers::depth_number(a)
}
