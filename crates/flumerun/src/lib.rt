// Layer 2 of the flume, the run: the number of steps, tests at entry, the turns. Knows the promises of flumegrid and flumeturns.
#![tactic(auto)]

pub mod running;
