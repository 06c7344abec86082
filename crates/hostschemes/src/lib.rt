// The C interface of two schemes on one wall map: join, part, and the map's walls, over numbers and slices alone.
#![tactic(auto)]

pub mod join;
pub mod part;
pub mod wall_add;
pub mod wall_remove;
