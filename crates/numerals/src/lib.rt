// A text by its bytes: its words and lines, and the numbers that words spell.
#![tactic(auto)]

pub mod number;
pub mod text;
