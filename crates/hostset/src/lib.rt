// The C interface of one set: check, loading, pour and take, over numbers and slices alone. A slice passes as pointer, then length; a result as the refusal's
// number, 0 if accepted, with place and values through the numbers lent for them.
#![tactic(auto)]

pub mod check;
pub mod load;
pub mod pour;
pub mod take;
