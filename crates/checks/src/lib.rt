// Layer 2, the check: tests 4, 5 and 6, and all of them in their order. Knows the promises of grid and lattice.
#![tactic(auto)]

pub mod checking;
pub mod fluid;
pub mod layer;
