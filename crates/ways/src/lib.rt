// The two ways along a row of a sweep, cell by cell: gates, and what one cell takes.
#![tactic(auto)]

pub mod cell;
pub mod gate;
