// Layer 1, where one part, or a pair of opposite parts, lands in stage 4: by the estimate of its equilibrium, or by the divider. Knows the promises of lattice.
#![tactic(auto)]

pub mod estimate;
pub mod landing;
pub mod pairs;
