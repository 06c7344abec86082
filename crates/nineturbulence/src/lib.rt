// Layer 1 of the flume in the turbulent mode: the stress of a cell's nine parts among the nineteen places, and its own relaxation.
// Knows the promises of turbulence and nine.
#![tactic(auto)]

pub mod relaxation;
pub mod stress;
