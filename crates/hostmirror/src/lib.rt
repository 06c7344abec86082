// The C interface of the mirror, over numbers and slices alone.
#![tactic(auto)]

pub mod reflected;
