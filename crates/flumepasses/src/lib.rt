// Layer 2 of the flume, stages 1 to 4 of a step over all cells. Knows the promises of flumegrid, flow and flumeflow.
#![tactic(auto)]

pub mod passing;
