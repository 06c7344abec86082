// The writer of a flume's records. Knows the promises of flumegrid, flumerecord and writing.
#![tactic(auto)]

mod front;
pub mod writer;
