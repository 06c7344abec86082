// The reader of a flume's records. Knows the promises of flumegrid, flumerecord and reading.
#![tactic(auto)]

mod content;
mod fair;
mod load;
pub mod loading;
pub mod reader;
mod shape;
mod take;
mod weigh;
