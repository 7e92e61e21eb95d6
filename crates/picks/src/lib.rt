// The moves from a cell that need a look.
#![tactic(auto)]

pub mod directions;
pub mod list;
mod pick;
