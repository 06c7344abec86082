// The C interface of a flume's record: reader and writer, over numbers and slices alone.
#![tactic(auto)]

pub mod read;
pub mod write;
