// Layer 2 of the flume, the turns of a run: step after step between two lent sets. Knows the promises of run and flumestep.
#![tactic(auto)]

pub mod turns;
