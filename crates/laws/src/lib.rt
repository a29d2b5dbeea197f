#![tactic(auto)]

// What follows from the definitions alone. No code: the laws are in specs and proofs.
