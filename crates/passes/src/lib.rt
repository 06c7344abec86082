// Layer 2, stages 1 to 4 of a step over all cells: the marks before them, and the pass. Knows the promises of grid and flow.
#![tactic(auto)]

pub mod marks;
pub mod passing;
