// Cell point.
ghost use Rattle.tunnel.specs.Point.{point_of};
ghost use Rattle.host.specs.Given.{sides_of};
ghost use Rattle.hosttunnel.specs.Promise.{PointTold};

use grid::Sides;
use tunnel::cell::cell_point;

// The centre of a cell and its fill.
#[unsafe(no_mangle)]
pub extern "C" fn skw_point(
    nx: usize,
    ny: usize,
    nz: usize,
    fills: &[u32],
    cell: usize,
    x: &mut f32,
    y: &mut f32,
    z: &mut f32,
    fill: &mut f32,
    place: &mut usize,
) -> u8
    ensures { PointTold (point_of (sides_of nx ny nz) fills.now cell) result place.new x.new y.new z.new fill.new }
{
    let s = Sides { nx, ny, nz };
    match cell_point(s, fills, cell) {
        Ok(c) => {
            *x = c.x;
            *y = c.y;
            *z = c.z;
            *fill = c.fill;
            *place = 0;
            0
        }
        Err(refusal) => {
            *x = 0.0;
            *y = 0.0;
            *z = 0.0;
            *fill = 0.0;
            *place = refusal.place();
            refusal.number()
        }
    }
}
