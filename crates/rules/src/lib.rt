#![tactic(auto)]

// Theorems alone: VecImp's rules as relations, and that the definitions of `meaning` agree with them.
