// Reading an invert: a height grid as the walls of a grid without water, into a lent set and its index. Knows the promises of heights, solids, grid, record, pumps and index.
#![tactic(auto)]

pub mod reader;
pub mod testing;
