// Layer 2, the step: tests at entry, the passes in a row, the copy on a refusal. Knows the promises of flow, conversion and fills.
#![tactic(auto)]

pub mod entry;
pub mod sets;
pub mod stepping;
