// The row intervals of a window: which cells of each row are inside.
#![tactic(auto)]

pub mod rows;
