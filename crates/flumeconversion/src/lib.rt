// Layer 2 of the flume, stage 5 of a step, and 5 with 6: newborn cells, what becomes of those that filled or emptied, where a cell has nine parts. Knows the promises
// of conversion, flumeflow, flumeexcess and flumemarks.
#![tactic(auto)]

pub mod birth;
pub mod settling;
pub mod turning;
