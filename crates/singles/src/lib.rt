#![tactic(auto)]

// Theorems over the definitions alone: singles are what a reader of IEEE 754 expects of them. No code.
