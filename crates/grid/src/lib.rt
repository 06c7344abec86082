// Layer 2, the grid: states, neighbours, the normal. Knows the promises of lattice.
#![tactic(auto)]

pub mod cells;
pub mod extent;
pub mod fill;
pub mod kinds;
pub mod lengths;
pub mod neighbours;
pub mod normal;
pub mod refusals;

// The sides of a grid, in cells.
#[derive(Clone, Copy)]
pub struct Sides {
    pub nx: usize,
    pub ny: usize,
    pub nz: usize,
}

// A cell's coordinates.
#[derive(Clone, Copy)]
pub struct Place {
    pub x: usize,
    pub y: usize,
    pub z: usize,
}
