// Layer 1, what the free surface adds: the formulas of stages 1, 2, 5 and 6. Knows the promises of lattice.
#![tactic(auto)]

pub mod convert;
pub mod excess;
pub mod exchange;
pub mod stream;
