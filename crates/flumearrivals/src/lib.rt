// Layer 2 of the flume, what arrives at a cell from one neighbour: its part in stage 1, its water in stage 2. Knows the promises of arrivals and nine.
#![tactic(auto)]

pub mod streaming;
pub mod trading;
