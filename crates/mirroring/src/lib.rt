// Layer 2, the mirror: a set reflected in an axis into a second set. Knows the promises of grid, pumps and index, and P13's reflection.
#![tactic(auto)]

pub mod entry;
pub mod reflection;
pub mod turning;
