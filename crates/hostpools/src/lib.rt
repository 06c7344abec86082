// The C interface of the pools, over numbers and slices alone.
#![tactic(auto)]

pub mod many_pools;
