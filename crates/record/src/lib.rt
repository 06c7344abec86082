// Layer 2, the grid record: its numbers, counts, sections and flags, for reader and writer. Knows the promises of grid.
#![tactic(auto)]

pub mod count;
pub mod flags;
pub mod given;
pub mod number;
pub mod places;
pub mod section;

use grid::Sides;
use grid::refusals::Answer;
use lattice::Settings;

// How many numbers sections 1 to 3 hold, and how many of section 7 a liquid cell has.
#[derive(Clone, Copy)]
pub struct Counts {
    pub sides: usize,
    pub settings: usize,
    pub origin: usize,
    pub parts: usize,
}

// Where a grid stands: the edge of a cell and the origin, in millimetres.
#[derive(Clone, Copy)]
pub struct Site {
    pub edge: i64,
    pub x: i64,
    pub y: i64,
    pub z: i64,
}

// What the reader answers beside the flags; beside a refusal all its numbers are 0.
#[derive(Clone, Copy)]
pub struct Head {
    pub answer: Answer,
    pub sides: Sides,
    pub settings: Settings,
    pub site: Site,
}

// What the reader hands back: its answer, and the flag section, a part of the caller's own bytes.
#[derive(Clone, Copy)]
pub struct Loaded<'a> {
    pub head: Head,
    pub flags: &'a [u8],
}

// Where a part of a slice begins and ends.
#[derive(Clone, Copy)]
pub struct Span {
    pub from: usize,
    pub to: usize,
}
