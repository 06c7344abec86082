// Layer 2, the step on whole sets, each with its three totals and its index. Knows the promises of calls and step.
#![tactic(auto)]

pub mod stepping;
