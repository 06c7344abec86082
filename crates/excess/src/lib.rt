// Layer 2, stage 6 of a step: what becomes of the excess of converted cells. Knows the promises of grid and surface.
#![tactic(auto)]

pub mod giving;
pub mod leaning;
pub mod straying;
