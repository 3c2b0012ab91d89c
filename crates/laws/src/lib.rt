#![tactic(auto)]
// What is true of numbers and tests in general, for the crates above to cite: definitions in specs/, laws in proofs/. It has no code.
