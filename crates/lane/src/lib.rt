#![tactic(auto)]

// Theorems over the definitions alone: one lane of a run is the run of the program narrowed to that lane. No code.
