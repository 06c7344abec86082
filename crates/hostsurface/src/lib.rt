// The C interface of the surface: how many interface cells there are, and the next one, over numbers and slices alone.
#![tactic(auto)]

pub mod surface;
