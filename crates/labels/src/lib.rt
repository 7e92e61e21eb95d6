// Two labels that meet.
#![tactic(auto)]

pub mod meet;
