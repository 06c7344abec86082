// Layer 2, the list of the pools, and the call. Knows the promises of pools and pumps.
#![tactic(auto)]

pub mod answers;
pub mod asking;
mod listing;
