// Layer 2, the depth map: the depths of a grid's water as the text of a height grid. Knows the promises of pumps, columns and spelling.
#![tactic(auto)]

mod depth;
mod long;
mod put;
pub mod writing;

// Where a map lies: the corner of its south-west cell, and the edge of a cell, in millimetres.
#[derive(Clone, Copy)]
pub struct Corner {
    pub edge: i64,
    pub x: i64,
    pub y: i64,
}
