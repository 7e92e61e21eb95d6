// The window of a field call.
#![tactic(auto)]

pub mod record;
