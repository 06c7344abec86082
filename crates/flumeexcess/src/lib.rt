// Layer 2 of the flume, stage 6 of a step: what becomes of the excess of converted cells, where a cell has nine parts. Knows the promises of excess, flume and nine.
#![tactic(auto)]

pub mod giving;
pub mod straying;
