// Starting and hearing: hosts 1 and 2 stepped word by word through the gates of a job, or of a day. The calls take what
// document 01 names, one by one, as C does; behind the checks it travels in structs.
#![tactic(auto)]

mod answering;
mod day;
mod day_place;
mod hearing;
mod place;
mod starting;
mod walk;

use calls::Stored;
pub use day::start_day;
use jobs::Refusal;
pub use starting::start;

// A host's registers: masked values and the host's own masks.
#[derive(Clone, Copy, Debug, PartialEq, Eq)]
pub struct Registers {
    pub m: [u32; 16],
    pub mask: [u32; 16],
}

// A host between two words: its lanes of registers (slots 0 to 15) and kept words (16 to 23), its place, and its stored
// places in A, B and the deals (R-7).
#[derive(Clone, Copy, Debug, PartialEq, Eq)]
pub struct State {
    pub m: [u32; 24],
    pub mask: [u32; 24],
    pub order: u32,
    pub turn: u32,
    pub stored: Stored,
}

// The words spoken so far, the word given, and the state.
#[derive(Clone, Copy, Debug, PartialEq, Eq)]
pub struct Answer {
    pub spoken: u32,
    pub word: u32,
    pub state: State,
}

// A call turned down: the state is given back, of a refused starting the registers in it.
#[derive(Clone, Copy, Debug, PartialEq, Eq)]
pub struct Refused {
    pub refusal: Refusal,
    pub state: State,
}
