// The C interface of height grids, over numbers and slices alone.
#![tactic(auto)]

pub mod depths_write;
pub mod invert_read;
