#![tactic(auto)]

// More mathematics of the walk graph, in proofs/: what the code and the promises rest on. No code.
