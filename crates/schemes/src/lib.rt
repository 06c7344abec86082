// Layer 2, schemes: a scheme's own water and the wall map that two designers share, and the tests of a scheme. Knows the promises of grid, checks and pumps.
#![tactic(auto)]

pub mod testing;
