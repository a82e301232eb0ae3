// The checks 16 and 17, and the quarters of a weekday with their number.
ghost use Rattle.std.specs.Prelude.{◌≡◌};
ghost use Rattle.calendars.specs.Answers.{counted, number_of, answer_of};

use crate::bits::counted_before;
use crate::rules::sound;
use crate::windows::quarters;
use crate::{Quarters, WEEKDAY_WORDS};

// Which quarters of a weekday count, and how many.
#[derive(Clone, Copy, Debug, PartialEq, Eq)]
pub struct CountedQuarters {
    pub quarters: Quarters,
    pub n: u32,
}

// Why no quarters are given.
#[derive(Clone, Copy, Debug, PartialEq, Eq)]
pub enum HoursError {
    // a calendar or a weekday that breaks a rule
    UnsoundCalendar = 16,
    // "no quarter counted"
    NoQuarter = 17,
}

impl HoursError {
    pub fn number(self) -> u32
        ensures { result ≡ number_of self }
    {
        self as u32
    }
}

// Which quarters of a weekday count, and how many; 16 for a calendar or a weekday that breaks a rule, then 17 where
// none counts.
pub fn counted(calendar: &[u32], weekday: u32) -> Result<CountedQuarters, HoursError>
    ensures { answer_of result ≡ counted calendar.now weekday }
{
    if !sound(calendar, weekday) {
        return Err(HoursError::UnsoundCalendar);
    }
    let (days, _) = calendar.as_chunks::<WEEKDAY_WORDS>();
    let quarters = quarters(&days[weekday as usize]);
    let n = counted_before(quarters, 96);
    if n == 0 {
        return Err(HoursError::NoQuarter);
    }
    Ok(CountedQuarters { quarters, n })
}
