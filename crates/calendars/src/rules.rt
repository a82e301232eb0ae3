// Check 16: a calendar's rules, on every weekday.
ghost use Rattle.std.specs.Prelude.{◌≡◌, ◌↔◌, ◌+◌, ◌*◌, ◌≤◌, All, IsTrue, length};
ghost use Rattle.calendars.specs.Ranges.{every};
ghost use Rattle.calendars.specs.Calendar.{well_ended, sound_window, sound_day, sound};

use crate::{CLEANING_AT, OPEN_AT, WEEKDAY_WORDS};

// Whether a window ends after its start, and not above 1440.
fn well_ended(start: u32, end: u32) -> bool
    ensures { result ≡ well_ended start end }
{
    start < end && end <= 1440
}

// Whether each of the n windows at a place of a weekday does.
fn sound_windows(day: &[u32; WEEKDAY_WORDS], at: usize, n: u32) -> bool
    requires { at + 2 * n ≤ length day.now }
    ensures { result ≡ every (sound_window day.now at) 0 n }
{
    (0..n as usize).all(|i| well_ended(day[at + 2 * i], day[at + 2 * i + 1]))
}

fn sound_day(day: &[u32; WEEKDAY_WORDS]) -> bool
    ensures { result ≡ sound_day day.now 0 }
{
    let open = day[0];
    let cleaning = day[1];
    open <= 8
        && cleaning <= 4
        && sound_windows(day, OPEN_AT, open)
        && sound_windows(day, CLEANING_AT, cleaning)
}

fn sound_days(days: &[[u32; WEEKDAY_WORDS]]) -> bool
    ensures { IsTrue result ↔ All (λ day. IsTrue (sound_day day 0)) days.now }
{
    days.iter().all(sound_day)
}

// Whether a calendar and a weekday keep the rules of check 16.
pub(crate) fn sound(calendar: &[u32], weekday: u32) -> bool
    ensures { result ≡ sound calendar.now weekday }
{
    if calendar.len() != 182 {
        return false;
    }
    weekday <= 6 && sound_days(calendar.as_chunks::<WEEKDAY_WORDS>().0)
}
