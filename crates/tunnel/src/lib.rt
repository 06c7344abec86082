// Layer 3, tunnel readings: placing and cell point. Knows the promises of grid and lattice.
#![tactic(auto)]

pub mod answers;
pub mod cell;
pub mod exact;
pub mod placing;

use grid::refusals::Refusal;

// A survey point or the grid's origin, in whole millimetres.
#[derive(Clone, Copy)]
pub struct Point {
    pub x: i64,
    pub y: i64,
    pub z: i64,
}

// What placing answers: a cell number, or why it is refused.
pub type Placed = Result<usize, Refusal>;

// A cell's centre in cells from the grid's corner, and its fill.
#[derive(Clone, Copy)]
pub struct CellPoint {
    pub x: f32,
    pub y: f32,
    pub z: f32,
    pub fill: f32,
}

// The depth of a column: solid, dry, or a depth in cells.
#[derive(Clone, Copy)]
pub enum Depth {
    Solid,
    Dry,
    Deep(f32),
}
