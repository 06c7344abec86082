// What gridstep counts of a state: the numbers of its line. Knows the promises of whole and lattice.
#![tactic(auto)]

pub mod counting;
