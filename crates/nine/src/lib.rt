// Layer 1 of the flume, what a cell does by itself: its nine parts among the box's nineteen places, collision, and the equilibrium that a new cell begins
// with. Knows the promises of lattice, collision, grid and flume.
#![tactic(auto)]

pub mod cells;
pub mod collide;
pub mod equilibrium;
pub mod estimate;
pub mod weights;
