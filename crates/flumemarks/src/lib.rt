// Layer 2 of the flume: passes 0 and 3 of its step by its eight directions, where the box's `_by` would look at all eighteen places. Knows the promises of passes and conversion.
#![tactic(auto)]

pub mod eight;
pub mod marks;
