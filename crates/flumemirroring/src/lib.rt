// Layer 2, the flume's mirror: a set reflected in an axis into a second set. Knows the promises of flumegrid and mirroring, and P13's reflection.
#![tactic(auto)]

pub mod entry;
pub mod reflection;
pub mod turning;
