// Host 0: preparation of a job or a day. The calls take what document 01 names, one by one, as C does.
#![tactic(auto)]

use jobs::Refusal;

mod day;
mod preparing;

pub use day::prepare_day;
pub use preparing::prepare;

// A register's two masks, for every register.
#[derive(Clone, Copy, Debug, PartialEq, Eq)]
pub struct Masks {
    pub l1: [u32; 16],
    pub l2: [u32; 16],
}

// Preparation's answer: the deals written, and the masks as the job or the day leaves them.
#[derive(Clone, Copy, Debug, PartialEq, Eq)]
pub struct Prepared {
    pub deals: u32,
    pub masks: Masks,
}

// A preparation turned down, which has written nothing: the masks are given back, for a day zeros.
#[derive(Clone, Copy, Debug, PartialEq, Eq)]
pub struct Refused {
    pub refusal: Refusal,
    pub masks: Masks,
}
