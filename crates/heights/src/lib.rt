// The text of an ASCII height grid: its header and its rows. Knows the promises of numerals.
#![tactic(auto)]

pub mod header;
pub mod rows;
