#![tactic(auto)]
// What is claimed of the whole, for a stranger to read: the calls in specs/, the three demands and the samples in proofs/. It has no code.
