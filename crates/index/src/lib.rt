// Layer 2, the index: one bit for each cell, set for interface cells, in words of 64. Knows the promises of grid and pumps.
#![tactic(auto)]

pub mod bits;
pub mod counting;
pub mod keeping;
pub mod loading;
pub mod words;

// What the question "which is next" answers: the cell found, None if there is none, and the words read.
#[derive(Clone, Copy)]
pub struct Next {
    pub cell: Option<usize>,
    pub words: usize,
}
