// The flume: document 02's second lattice, a section in two dimensions, x along and z up. Knows the promises of lattice and grid.
#![tactic(auto)]

pub mod extent;

// The sides of a flume, in cells.
#[derive(Clone, Copy)]
pub struct FlumeSides {
    pub nx: usize,
    pub nz: usize,
}

// The relaxation and the gravity of a flume's step, and its mode.
#[derive(Clone, Copy)]
pub struct FlumeSettings {
    pub p: i64,
    pub gx: i64,
    pub gz: i64,
    pub turbulent: bool,
}
