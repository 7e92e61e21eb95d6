// The access cells of many rectangles in one call, in the form that the fields call takes: u32 indices with an end for each rectangle.
#![tactic(auto)]

pub mod call;
mod order;
