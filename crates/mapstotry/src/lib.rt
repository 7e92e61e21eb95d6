#![tactic(auto)]

// The maps to try of document 01 that are marked P: one table in specs/, and the laws that compute it in proofs/. No code.
