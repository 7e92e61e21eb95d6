// Fields of resources: cells are labelled to depth 16 from all access cells at once, and labels that meet across a step are joined.
#![tactic(auto)]

mod expand;
pub mod search;
