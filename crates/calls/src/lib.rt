// Preparation, starting and hearing: their definitions, and laws of the checks 1 to 7. The code stands in `call_check`,
// `dealer` and `worker`.
#![tactic(auto)]

// R-7, a state's stored places: how far A, B and the deals are used.
#[derive(Clone, Copy, Debug, PartialEq, Eq)]
pub struct Stored {
    pub a: u32,
    pub b: u32,
    pub deals: u32,
}
