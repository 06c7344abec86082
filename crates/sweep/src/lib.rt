// Layer 2, what is asked of the index: how many interface cells there are, and which is next. Knows the promises of index.
#![tactic(auto)]

pub mod asking;
pub mod numbers;
