// Walks of the hosts over any list of steps, gates or programs: definitions and laws; the crate has no code.
#![tactic(auto)]
