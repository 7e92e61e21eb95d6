// One cell is labelled, or its label is met: an access cell, or the cell after a move.
#![tactic(auto)]

pub mod plant;
pub mod queue;
pub mod visit;
