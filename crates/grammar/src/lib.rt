#![tactic(auto)]

// Theorems alone: the grammar as derivations without a limit, and that the reader of `meaning` accepts those of at most 32 levels.
