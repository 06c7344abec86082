// Layer 2, the run: step after step between two lent sets. Knows the promises of step.
#![tactic(auto)]

pub mod running;
