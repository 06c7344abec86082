// The C interface of step and run, over numbers and slices alone.
#![tactic(auto)]

pub mod many_steps;
pub mod one_step;
