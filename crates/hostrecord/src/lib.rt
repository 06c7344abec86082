// The C interface of a record: reader and writer, over numbers and slices alone.
#![tactic(auto)]

pub mod read;
pub mod write;
