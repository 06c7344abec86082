// Layer 2, the writer of grid records. Knows the promises of record.
#![tactic(auto)]

pub mod cells;
pub mod front;
mod put;
pub mod writer;
