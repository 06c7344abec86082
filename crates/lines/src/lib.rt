// What gridstep tells: a record read and stepped, and the numbers of its lines. Knows the promises of counts, reading, step and console.
#![tactic(auto)]

pub mod playing;
pub mod records;
