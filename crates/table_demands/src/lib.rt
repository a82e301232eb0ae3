// What is proved of runs on a table that was loaded (R-5): definitions and theorems; the crate has no code.
#![tactic(auto)]
