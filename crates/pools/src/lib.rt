// Layer 2, pools: which liquid cells hang together. Knows the promises of grid and pumps.
#![tactic(auto)]

pub mod flood;
