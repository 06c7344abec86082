// What the programs share: how much room a record asks for, arguments and the numbers that they spell, input, and lines of text.
#![tactic(auto)]

pub mod answers;
pub mod arguments;
pub mod decimal;
pub mod input;
pub mod line;
pub mod room;
pub mod signed;
