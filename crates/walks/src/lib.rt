// Layer 2, how a pass walks over all cells: where it goes on, and copies. Knows the promises of grid.
#![tactic(auto)]

pub mod copying;
pub mod seeking;
