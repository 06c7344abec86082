// Layer 2, the runs: the run on whole sets, each with its three totals and its index. Knows the promises of run, calls and index.
#![tactic(auto)]

pub mod running;
