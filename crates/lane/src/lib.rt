// Lanes: an i16 holds the half cost less 15,234, and 32,767 is unreachable.
#![tactic(auto)]

pub mod value;
