// The disjoint set: joining classes.
#![tactic(auto)]

pub mod union;
