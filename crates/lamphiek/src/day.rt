// The three hosts' calls of a day (R-3, R-6): preparation, starting, hearing; and which quarters of it count.
ghost use Rattle.std.specs.Prelude.{◌≡◌};
ghost use Rattle.calendars.specs.Answers.{counted};
ghost use Rattle.days.specs.Day.{hours};
ghost use Rattle.days.specs.DayCalls.{day_prepare, day_start, day_hear};
ghost use Rattle.lamphiek.specs.Hours.{counted_told, quarters_left};
ghost use Rattle.lamphiek.specs.Layout.{state_in};
ghost use Rattle.lamphiek.specs.Stepping.{prepared, masks_left, spoken, state_left};

use crate::Answer;
use crate::layout::state_in;
use crate::stepping::{put_answer, put_prepared};
use dealer::prepare_day;
use worker::start_day;

// Which quarters of a weekday count (R-6): their bits are written, and counted in the answer. Numbers 16, 17.
#[unsafe(no_mangle)]
pub extern "C" fn lamphiek_day_quarters(
    calendar: &[u32],
    weekday: u32,
    quarters: &mut [u32; 3],
) -> Answer
    ensures answer { result ≡ counted_told (counted calendar.now weekday) }
    ensures quarters { quarters.new
        ≡ quarters_left (counted calendar.now weekday) quarters.old }
{
    let (number, count) = match calendars::counted(calendar, weekday) {
        Ok(found) => {
            let words = found.quarters.words;
            *quarters = words;
            (0, found.n)
        }
        Err(e) => (e.number(), 0),
    };
    Answer {
        number,
        index: 0,
        count,
        word: 0,
    }
}

// Host 0 prepares a day: its deals are written, and its masks of all registers at the day's end. Numbers 12, 16, 17, 5,
// 6, 7.
#[unsafe(no_mangle)]
pub extern "C" fn lamphiek_day_prepare(
    masks: &mut [u32; 32],
    table: &[u32],
    shares: &[u32],
    calendar: &[u32],
    weekday: u32,
    a: &[u32],
    b: &[u32],
    deals: &mut [u32],
) -> Answer
    ensures answer { result
        ≡ prepared (day_prepare 32 table.now shares.now (hours calendar.now weekday)
        a.now b.now deals.old) }
    ensures buffer { deals.new
        ≡ (day_prepare 32 table.now shares.now (hours calendar.now weekday)
        a.now b.now deals.old).buffer }
    ensures masks { masks.new
        ≡ masks_left
        (day_prepare 32 table.now shares.now (hours calendar.now weekday)
        a.now b.now deals.old)
        masks.old }
{
    let p = prepare_day(table, shares, calendar, weekday, a, b, deals);
    put_prepared(masks, p)
}

// Host 1 or 2 starts a day, from registers of 0, to its first word. Numbers 1, 12, 16, 17, 5, 6, 7.
#[unsafe(no_mangle)]
pub extern "C" fn lamphiek_day_start(
    state: &mut [u32; 53],
    host: u32,
    table: &[u32],
    shares: &[u32],
    calendar: &[u32],
    weekday: u32,
    masks: &[u32],
    deals: &[u32],
) -> Answer
    ensures answer { result
        ≡ spoken (day_start 32 host table.now shares.now (hours calendar.now weekday)
        masks.now deals.now) }
    ensures state { state.new
        ≡ state_left
        (day_start 32 host table.now shares.now (hours calendar.now weekday)
        masks.now deals.now)
        state.old }
{
    let a = start_day(host, table, shares, calendar, weekday, masks, deals);
    put_answer(state, a)
}

// Host 1 or 2 hears the word that the other spoke at its place of the day: up to its own next word. Numbers 1, 12, 16,
// 17, 5, 6, 7, 8, 18, 9.
#[unsafe(no_mangle)]
pub extern "C" fn lamphiek_day_hear(
    state: &mut [u32; 53],
    host: u32,
    table: &[u32],
    shares: &[u32],
    calendar: &[u32],
    weekday: u32,
    masks: &[u32],
    deals: &[u32],
    heard: u32,
) -> Answer
    ensures answer { result
        ≡ spoken (day_hear 32 host table.now shares.now (hours calendar.now weekday)
        masks.now deals.now (state_in state.old) heard) }
    ensures state { state.new
        ≡ state_left
        (day_hear 32 host table.now shares.now (hours calendar.now weekday)
        masks.now deals.now (state_in state.old) heard)
        state.old }
{
    let a = state_in(state).hear_day(host, table, shares, calendar, weekday, masks, deals, heard);
    put_answer(state, a)
}
