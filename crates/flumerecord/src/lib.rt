// The flume's record: what its head gives, and its flags, for reader and writer. Knows the promises of flume and record.
#![tactic(auto)]

pub mod flags;
pub mod given;

use flume::{FlumeSettings, FlumeSides};
use grid::refusals::Answer;

// Where a flume stands: the edge of a cell and the origin, in millimetres.
#[derive(Clone, Copy)]
pub struct FlumeSite {
    pub edge: i64,
    pub x: i64,
    pub z: i64,
}

// What the reader answers beside the flags; beside a refusal all its numbers are 0.
#[derive(Clone, Copy)]
pub struct FlumeHead {
    pub answer: Answer,
    pub sides: FlumeSides,
    pub settings: FlumeSettings,
    pub site: FlumeSite,
}

// What the reader hands back: its answer, and the flag section, a part of the caller's own bytes.
#[derive(Clone, Copy)]
pub struct FlumeLoaded<'a> {
    pub head: FlumeHead,
    pub flags: &'a [u8],
}
