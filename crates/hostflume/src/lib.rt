// The C interface of the flume: check, step and run, over numbers and slices alone. A slice passes as pointer, then length; a result as the refusal's number,
// 0 if accepted, with place and values through the numbers lent for them.
#![tactic(auto)]

pub mod check;
pub mod many_steps;
pub mod one_step;
