// Layer 2, stages 1 to 4 of a step, of one cell: streaming, exchange, gravity with its test, collision. Knows the promises of grid, surface, arrivals and collision.
#![tactic(auto)]

pub mod moving;
pub mod relaxing;
pub mod streaming;
pub mod trading;
