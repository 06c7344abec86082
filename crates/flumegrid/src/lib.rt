// Layer 2 of the flume: where its neighbours lie, the tests of a state, and the tests with which a step begins. Knows the promises of grid, flume and nine.
#![tactic(auto)]

pub mod checking;
pub mod entry;
pub mod fill;
pub mod fluid;
pub mod layer;
pub mod lengths;
pub mod neighbours;
