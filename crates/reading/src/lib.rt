// Layer 2, the reader of grid records. Knows the promises of record.
#![tactic(auto)]

mod content;
pub mod fair;
mod load;
pub mod loading;
pub mod reader;
mod shape;
mod take;
mod weigh;
