// Layer 1, lattice arithmetic: the table of directions, density and momentum, and the rules and fill of one cell. Knows no grid.
#![tactic(auto)]

pub mod directions;
pub mod fill;
pub mod limits;
pub mod moments;
pub mod rules;

// The relaxation and the gravity of a step, as document 01's settings have them, and its mode: in the turbulent one each cell has a relaxation of its own.
#[derive(Clone, Copy)]
pub struct Settings {
    pub p: i64,
    pub gx: i64,
    pub gy: i64,
    pub gz: i64,
    pub turbulent: bool,
}

// Density and momentum of a cell.
#[derive(Clone, Copy)]
pub struct Flow {
    pub rho: i32,
    pub x: i32,
    pub y: i32,
    pub z: i32,
}
