// Placing.
ghost use Rattle.host.specs.Given.{sides_of};
ghost use Rattle.hosttunnel.specs.Promise.{millimetres, PlaceTold};

use grid::Sides;
use tunnel::{Point, answers, placing};

// The cell that holds a survey point.
#[unsafe(no_mangle)]
pub extern "C" fn skw_place(
    nx: usize,
    ny: usize,
    nz: usize,
    edge: i64,
    ox: i64,
    oy: i64,
    oz: i64,
    x: i64,
    y: i64,
    z: i64,
    cell: &mut usize,
    place: &mut usize,
) -> u8
    ensures { PlaceTold (sides_of nx ny nz) edge (millimetres ox oy oz) (millimetres x y z) result place.new cell.new }
{
    let s = Sides { nx, ny, nz };
    let origin = Point {
        x: ox,
        y: oy,
        z: oz,
    };
    let point = Point { x, y, z };
    let a = placing::place(s, edge, origin, point);
    *cell = answers::cell_number(a);
    *place = answers::refusal_place(a);
    answers::refusal_number(a)
}
