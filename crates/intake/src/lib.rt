// Layer 2, the intake: the reader into a set with its index. Knows the promises of reading and index.
#![tactic(auto)]

pub mod reader;
