// Theorems about runs; the crate has no code.
#![tactic(auto)]
