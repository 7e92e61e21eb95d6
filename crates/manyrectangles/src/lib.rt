// The access cells of many rectangles: counted, and those of one of them listed behind the others.
#![tactic(auto)]

pub mod all;
pub mod one;
