// Placing: the cell that holds a survey point.
ghost use Rattle.std.specs.Prelude.{◌≡◌, true, nat_abs};
ghost use Rattle.grid.specs.Grid.{sides_good};
ghost use Rattle.lattice.specs.Cell.{edge_good, coordinate_good};
ghost use Rattle.tunnel.specs.Place.{point_good, axis_of, found_of, placing_of};

use crate::cell::number;
use crate::{Placed, Point};
use grid::Sides;
use grid::extent::good_sides;
use grid::refusals::Refusal;

fn good_edge(edge: i64) -> bool
    ensures { result ≡ edge_good edge }
{
    (1 <= edge) & (edge <= 1000)
}

fn good_coordinate(a: i64) -> bool
    ensures { result ≡ coordinate_good a }
{
    (-10000000000 <= a) & (a <= 10000000000)
}

fn good_point(p: Point) -> bool
    ensures { result ≡ point_good p }
{
    good_coordinate(p.x) & good_coordinate(p.y) & good_coordinate(p.z)
}

// One axis: floor((point − origin)/edge) where that is inside the side, else the side. A negative difference is outside, whatever
// its quotient; from 0 on the unsigned quotient is the floor.
fn axis(point: i64, origin: i64, edge: i64, side: usize) -> usize
    requires point_value { coordinate_good point ≡ true }
    requires origin_value { coordinate_good origin ≡ true }
    requires edge_value { edge_good edge ≡ true }
    ensures { result ≡ axis_of point origin (nat_abs edge) side }
{
    let d = point - origin;
    if d < 0 {
        return side;
    }
    let q = d as usize / edge as usize;
    if q < side {
        return q;
    }
    side
}

// The cell that holds the point, or 13.
fn found(s: Sides, edge: i64, origin: Point, point: Point) -> Placed
    requires s_value { sides_good s ≡ true }
    requires edge_value { edge_good edge ≡ true }
    requires origin_value { point_good origin ≡ true }
    requires point_value { point_good point ≡ true }
    ensures { result ≡ found_of s edge origin point }
{
    let x = axis(point.x, origin.x, edge, s.nx);
    let y = axis(point.y, origin.y, edge, s.ny);
    let z = axis(point.z, origin.z, edge, s.nz);
    if s.nx <= x {
        return Err(Refusal::Outside);
    }
    if s.ny <= y {
        return Err(Refusal::Outside);
    }
    if s.nz <= z {
        return Err(Refusal::Outside);
    }
    Ok(number(s, x, y, z))
}

// The cell that holds a survey point of a grid with this cell edge and origin. No difference is formed before the ranges are tested.
pub fn place(s: Sides, edge: i64, origin: Point, point: Point) -> Placed
    ensures { result ≡ placing_of s edge origin point }
{
    if !good_sides(s) {
        return Err(Refusal::BadSides);
    }
    if !good_edge(edge) {
        return Err(Refusal::BadSetting(0));
    }
    if !good_point(origin) {
        return Err(Refusal::BadSetting(0));
    }
    if !good_point(point) {
        return Err(Refusal::BadSetting(0));
    }
    found(s, edge, origin, point)
}
