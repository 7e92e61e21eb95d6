// Document 01's table of refusals: the tests that several calls share. None of them requires anything of what it is given.
#![tactic(auto)]

pub mod numbers;
