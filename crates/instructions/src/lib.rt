#![tactic(auto)]

// What a plan is: the instructions of an expression, the words of a planned program, and what they leave. No code: definitions in specs,
// and the laws that plan, evaluation and engine share in proofs.
