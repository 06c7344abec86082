// Layer 2, schemes: a scheme joined with the wall map, and parted again. Knows the promises of grid, checks and schemes.
#![tactic(auto)]

pub mod joining;
