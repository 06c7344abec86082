// Layer 2 of the flume, stage 7 of a step: the fills, where a cell has nine parts. Knows the promises of fills and flumegrid.
#![tactic(auto)]

pub mod filling;
