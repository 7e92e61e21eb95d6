// The rings of resources.
#![tactic(auto)]

pub mod ring;
