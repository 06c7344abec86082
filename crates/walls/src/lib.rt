// Layer 2, walls: the changes of the map that two designers share. Knows the promises of grid and schemes.
#![tactic(auto)]

pub mod changes;
