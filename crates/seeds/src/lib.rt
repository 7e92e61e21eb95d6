// The access cells of all resources, labelled: what the search of the fields starts from.
#![tactic(auto)]

mod ground;
pub mod seed;
mod sow;
