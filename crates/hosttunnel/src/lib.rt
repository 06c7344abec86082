// The C interface of the readings: placing, cell point, depth and profile, over numbers and slices alone.
#![tactic(auto)]

pub mod depth;
pub mod long_profile;
pub mod place;
pub mod point;
