// Layer 2, stage 5 of a step, and 5 with 6: which cells convert, newborn cells, what becomes of those that filled or emptied. Knows the promises of collision, flow and excess.
#![tactic(auto)]

pub mod birth;
pub mod convert;
pub mod emptying;
pub mod settling;
pub mod turning;
