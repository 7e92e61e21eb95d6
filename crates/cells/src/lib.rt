// Pixels to cells, and boxes of cells: document 01, "Ring" and "Window", in numbers.
#![tactic(auto)]

pub mod boxes;
pub mod edge;
