// The three demands of the customer, of every run and of every call; the crate has no code.
#![tactic(auto)]
