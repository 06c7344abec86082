// Layer 2, the calls on whole sets, each with its three totals and its index: their tests, and the totals. Knows the promises of step, pumps and index.
#![tactic(auto)]

pub mod entry;
pub mod totals;
