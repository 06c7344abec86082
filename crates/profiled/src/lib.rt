// Layer 4, the lines of a chainage profile written, and the call. Knows the promises of profile.
#![tactic(auto)]

pub mod answers;
pub mod asking;
mod kinds;
mod writing;
