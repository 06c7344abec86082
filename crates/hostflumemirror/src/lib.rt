// The C interface of the flume's mirror, over numbers and slices alone.
#![tactic(auto)]

pub mod reflected;
