// What the crates of the C interface share: an answer in numbers, and what the layers take from the numbers that a call is given.
#![tactic(auto)]

pub mod answers;
