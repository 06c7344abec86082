// Numbers spelled into a lent room as a height grid has them, and how long they are. Knows nothing of grids.
#![tactic(auto)]

pub mod spell;
