// Lines of a room text: a count on a line of its own, and a line of four numbers.
#![tactic(auto)]

pub mod counts;
pub mod fours;
