// The cells of a grid that an invert makes walls, and a set without water. Knows the promises of heights and grid.
#![tactic(auto)]

pub mod clearing;
pub mod walls;
