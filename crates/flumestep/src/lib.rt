// Layer 2 of the flume, the step: tests at entry, the passes in a row, the copy on a refusal. Knows the promises of flumegrid, flumepasses and flumefinish.
#![tactic(auto)]

pub mod marking;
pub mod stepping;
