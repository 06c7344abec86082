// Layer 2, stage 7 of a step: the fills, worked out afresh. Knows the promises of grid.
#![tactic(auto)]

pub mod filling;
