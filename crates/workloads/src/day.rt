// Digit 9, a day (R-3) on the house table: all of it, with all quarters counted or 48 of them (R-6), or one hearing;
// and, beside that, the same of a job of one curve.
use crate::lists::Lists;
use crate::turns;
use calls::Stored;
use dealer::prepare_day;
use tables::HOUSE;
use words::wrapping_mul;
use worker::{Answer, Refused, State, start_day};

// The order behind a day's last one.
const END: u32 = 97;

const CURVE: [u32; 4] = [10, 0, 0, 0];

const WEEKDAY: u32 = 0;

// More than the hearings of a host in a day.
const HEARINGS: u32 = 12000;

// What the input names in place of a job's orders.
#[derive(Clone, Copy, Debug, PartialEq, Eq)]
enum Named {
    // the whole day, open at all hours
    Day,
    // the day that is open from 8 to 20 o'clock: 48 counted quarters
    HalfDay,
    // a hearing of a job, of an exact curve
    JobHearing,
    // a hearing in a quarter of the day
    Hearing(u32),
}

impl From<u32> for Named {
    fn from(number: u32) -> Self {
        match number {
            END => Named::Day,
            98 => Named::JobHearing,
            99 => Named::HalfDay,
            quarter => Named::Hearing(quarter),
        }
    }
}

// The last answers of hosts 1 and 2.
#[derive(Clone, Copy)]
struct Workers {
    one: Answer,
    two: Answer,
}

// What the hosts are lent of a day beside masks and deals: their shares of its readings, two words to a quarter, and
// the calendar, 26 words to a weekday.
#[derive(Drop)]
struct Day {
    zero: [[u32; 2]; 96],
    one: [[u32; 2]; 96],
    two: [[u32; 2]; 96],
    calendar: [[u32; 26]; 7],
}

// A host's shares: two words, each a step more at each quarter.
fn shares(first: [u32; 2], step: [u32; 2]) -> [[u32; 2]; 96] {
    let mut list = [first; 96];
    let [mut x, mut y] = first;
    for quarter in &mut list {
        *quarter = [x, y];
        x = x.wrapping_add(step[0]);
        y = y.wrapping_add(step[1]);
    }
    list
}

// One open window on each weekday.
fn calendar(start: u32, end: u32) -> [[u32; 26]; 7] {
    let mut weekday = [0; 26];
    weekday[0] = 1;
    weekday[2] = start;
    weekday[3] = end;
    [weekday; 7]
}

impl Day {
    // A day that is open between two minutes.
    fn open(start: u32, end: u32) -> Self {
        Day {
            zero: shares([1, 2], [3, 5]),
            one: shares([3, 1], [48, 3]),
            two: shares([3, 2], [48, 5]),
            calendar: calendar(start, end),
        }
    }

    fn begun(&self, lists: &Lists) -> Result<Workers, Refused> {
        let one = self.one.as_flattened();
        let two = self.two.as_flattened();
        let calendar = self.calendar.as_flattened();
        Ok(Workers {
            one: start_day(1, &HOUSE, one, calendar, WEEKDAY, &lists.a, &[])?,
            two: start_day(2, &HOUSE, two, calendar, WEEKDAY, &lists.b, &lists.deals)?,
        })
    }

    // Host 1's hearing.
    fn heard(&self, lists: &Lists, state: State, word: u32) -> Result<Answer, Refused> {
        let one = self.one.as_flattened();
        let calendar = self.calendar.as_flattened();
        state.hear_day(1, &HOUSE, one, calendar, WEEKDAY, &lists.a, &[], word)
    }

    // Each host hears the word that the other spoke last.
    fn exchanged(&self, lists: &Lists, s: Workers) -> Result<Workers, Refused> {
        let two = self.two.as_flattened();
        let calendar = self.calendar.as_flattened();
        let second = s.two.state;
        Ok(Workers {
            one: self.heard(lists, s.one.state, s.two.word)?,
            two: second.hear_day(
                2,
                &HOUSE,
                two,
                calendar,
                WEEKDAY,
                &lists.b,
                &lists.deals,
                s.one.word,
            )?,
        })
    }

    // Both hosts from their startings to the end.
    fn ended(&self, lists: &Lists) -> Result<Workers, Refused> {
        let mut s = self.begun(lists)?;
        for _ in 0..HEARINGS {
            if s.one.state.order == END {
                break;
            }
            s = self.exchanged(lists, s)?;
        }
        Ok(s)
    }

    // No turn is refused: what the hosts are lent of a day is sound, and the lists suffice. A refusal would count 0.
    fn running(&self, lists: &mut Lists) -> u32 {
        let zero = self.zero.as_flattened();
        let calendar = self.calendar.as_flattened();
        let prepared = prepare_day(
            &HOUSE,
            zero,
            calendar,
            WEEKDAY,
            &lists.a,
            &lists.b,
            &mut lists.deals,
        );
        let dealt = prepared.map_or(0, |p| p.deals.wrapping_add(p.masks.l1[0]));
        let heard = self.ended(lists).map_or(0, |s| {
            let state = s.one.state;
            state.m[0]
                .wrapping_add(state.m[1])
                .wrapping_add(s.two.spoken)
        });
        heard.wrapping_add(dealt)
    }
}

// Host 1 at turn 60 of a house curve behind so many of them. A house curve uses 241 words of A, 120 of B and 121 deals,
// each turn of its rows 2, 1 and 1.
fn in_curve(order: u32, x: u32) -> State {
    State {
        m: [x; 24],
        mask: [7; 24],
        order,
        turn: 60,
        stored: Stored {
            a: wrapping_mul(order, 241).wrapping_add(122),
            b: wrapping_mul(order, 120).wrapping_add(61),
            deals: wrapping_mul(order, 121).wrapping_add(61),
        },
    }
}

fn told(r: Result<Answer, Refused>) -> u32 {
    let (said, state) = match r {
        Ok(answer) => (wrapping_mul(answer.spoken, 257), answer.state),
        Err(Refused { refusal, state }) => (wrapping_mul(refusal.condition.number(), 65537), state),
    };
    let place = wrapping_mul(state.order, 31).wrapping_add(state.turn);
    said.wrapping_add(place).wrapping_add(state.m[0])
}

// Host 1's hearing in a job of one curve.
fn job_hearing(lists: &Lists, x: u32) -> u32 {
    told(in_curve(0, x).hear(1, &CURVE, &HOUSE, &lists.a, &[], 5))
}

// Its hearing in a quarter; refused in the mean, which has no such turn.
fn hearing(day: &Day, lists: &Lists, quarter: u32, x: u32) -> u32 {
    told(day.heard(lists, in_curve(quarter, x), 5))
}

// The sum over n turns of what a number names.
pub(crate) fn summed(number: u32, lists: &mut Lists, n: u32) -> u32 {
    let named = Named::from(number);
    let day = match named {
        Named::HalfDay => Day::open(480, 1200),
        _ => Day::open(0, 1440),
    };
    match named {
        Named::Day | Named::HalfDay => turns::summed(n, |_| day.running(lists)),
        Named::JobHearing => turns::summed(n, |x| job_hearing(lists, x)),
        Named::Hearing(quarter) => turns::summed(n, |x| hearing(&day, lists, quarter, x)),
    }
}
