#![tactic(auto)]

// Theorems: what the definitions of the services promise whoever calls them, each a sentence of document 01.
