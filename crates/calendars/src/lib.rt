// Calendars of opening hours (document 02, R-6): which quarters of a weekday count, how many there are, and the factor
// of the day's mean.
#![tactic(auto)]

mod bits;
mod checks;
mod factors;
mod rules;
mod spans;
mod windows;

pub use bits::{counted_before, counts_at, next_counted};
pub use checks::{CountedQuarters, HoursError, counted};
pub use factors::factor;

// A weekday's words: how many open and how many cleaning windows, then the room for each, two words to a window.
const WEEKDAY_WORDS: usize = 26;

const OPEN_AT: usize = 2;

const CLEANING_AT: usize = 18;

// The 96 quarters as bits, quarter q at bit q % 32 of word q / 32.
#[derive(Clone, Copy, Debug, PartialEq, Eq)]
pub struct Quarters {
    pub words: [u32; 3],
}
