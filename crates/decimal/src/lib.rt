// Decimal numbers in a text: what their texts are, and those from 0 on read from a lent slice. One text is accepted for each number.
#![tactic(auto)]

pub mod read;
