// The walkable cells of a ring, row by row, counted and listed.
#![tactic(auto)]

mod row;
pub mod rows;
