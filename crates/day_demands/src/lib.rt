// What is proved of every run of a day (R-3): definitions and theorems; the crate has no code.
#![tactic(auto)]
