// Runs of cells, of which a row of a ring has at most two: the walkable ones counted and listed.
#![tactic(auto)]

pub mod run;
