// Layer 3, the depth of a column. Knows the promises of tunnel.
#![tactic(auto)]

pub mod column;
pub mod sum;
