// Layer 2 of the flume, stages 1 to 4 of a step, of one cell: streaming, exchange, gravity with its test, collision. Knows the promises of flow, nine and flumearrivals.
#![tactic(auto)]

pub mod moving;
pub mod relaxing;
pub mod streaming;
pub mod trading;
