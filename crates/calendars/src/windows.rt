// Which quarters of a weekday count.
ghost use Rattle.std.specs.Prelude.{◌≡◌, ◌+◌, ◌*◌, ◌≤◌, length};
ghost use Rattle.calendars.specs.Ranges.{packed};
ghost use Rattle.calendars.specs.Calendar.{lies, counts};
ghost use Rattle.calendars.specs.Quarters.{quarters_where, Ruled};
ghost use Rattle.calendars.specs.Answers.{HasRoom};

use crate::spans::{quarter_from, span};
use crate::{CLEANING_AT, OPEN_AT, Quarters, WEEKDAY_WORDS};

// The quarters that lie in one of the n windows at a place of a weekday, of the 32 from `first` on.
fn marked(day: &[u32; WEEKDAY_WORDS], at: usize, n: u32, first: u32) -> u32
    requires { at + 2 * n ≤ length day.now }
    ensures { result ≡ packed (lies day.now at n) first 32 }
{
    let mut bits = 0;
    for i in 0..n as usize {
        let place = at + 2 * i;
        let start = quarter_from(day[place]);
        let end = quarter_from(day[place + 1]);
        bits |= span(start, end, first);
    }
    bits
}

// The quarters that count, by the kinds of window that they lie in.
fn rule(opened: u32, cleaned: u32) -> u32
    ensures { Ruled opened cleaned result }
{
    opened // in whatever cleaning windows
}

// The quarters of a weekday that count, of the 32 from `first` on.
fn counting(day: &[u32; WEEKDAY_WORDS], first: u32) -> u32
    requires { HasRoom day.now 0 }
    ensures { result ≡ packed (counts day.now 0) first 32 }
{
    let opened = marked(day, OPEN_AT, day[0], first);
    let cleaned = marked(day, CLEANING_AT, day[1], first);
    rule(opened, cleaned)
}

pub(crate) fn quarters(day: &[u32; WEEKDAY_WORDS]) -> Quarters
    requires { HasRoom day.now 0 }
    ensures { result ≡ quarters_where (counts day.now 0) }
{
    Quarters {
        words: [0, 32, 64].map(|first| counting(day, first)),
    }
}
