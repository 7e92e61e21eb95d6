// Decimal numbers written to a lent slice: the one text that reading accepts for each.
#![tactic(auto)]

pub mod write;
