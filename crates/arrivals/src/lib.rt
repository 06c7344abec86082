// Layer 2, what arrives at a cell from one neighbour: its part in stage 1, its water in stage 2. Knows the promises of grid and surface.
#![tactic(auto)]

pub mod streaming;
pub mod trading;
