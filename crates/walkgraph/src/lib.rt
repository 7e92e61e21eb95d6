#![tactic(auto)]

// The walk graph of document 01: definitions in specs/, read in the order of specs/Lib.antt, and the mathematics about them in proofs/. No code.
