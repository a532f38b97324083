#![tactic(auto)]

// The mathematics of clauses written once; no code.
