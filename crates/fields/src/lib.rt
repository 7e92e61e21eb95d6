// The fields call: which resources are one field.
#![tactic(auto)]

pub mod call;
