// The day sheet (R-3): the programs of its orders, its calls' answers, and the laws by which the hosts' code walks it;
// the crate has no code.
#![tactic(auto)]
