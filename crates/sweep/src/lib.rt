// Sweeps: the rows of a window visited in turn, down and up, until nothing changes, with version buffers made before them and cleared after them.
#![tactic(auto)]

pub mod relax;
mod run;
