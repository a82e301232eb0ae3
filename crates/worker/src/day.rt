// Starting and hearing of a day (R-3). Each order of a day that is run (R-6) is walked as one order of a job, with the
// share of its quarter in a slot of the lanes; what stood there is put back before a call answers.
ghost use Rattle.std.specs.Prelude.{◌≡◌, true, ℕ, ◌+◌, ◌≤◌, ◌<◌, length, drop};
ghost use Rattle.tables.specs.Table.{rows};
ghost use Rattle.gates.specs.Meaning.{job_steps};
ghost use Rattle.gates.specs.Steps.{origin};
ghost use Rattle.jobs.specs.Counts.{counted};
ghost use Rattle.calls.specs.declared.Stored.{Stored};
ghost use Rattle.calls.specs.Calls as Calls;
ghost use Rattle.calls.specs.Lent.{lent, lent_fault};
ghost use Rattle.calls.specs.Places.{seek};
ghost use Rattle.worker_gate.specs.Workers.{worker};
ghost use Rattle.walks.specs.Halts.{reported};
ghost use Rattle.calendars.specs.Quarters.{held};
ghost use Rattle.days.specs.Day.{Hours, hours, day_gates, day_steps, day_script};
ghost use Rattle.days.specs.DayCalls.{day_start, day_hear};
ghost use Rattle.days.specs.Orders.{is_run, within, first_tail, second_tail};
ghost use Rattle.worker.specs.Answers.{answer_of, state_of, state_with, halt_on};
ghost use Rattle.day_order.specs.Long.{Long};
ghost use Rattle.worker.specs.Days.{Accepted, SameDay, StandsIn, cost_to, used_until};

use crate::answering::{answered, first_state, refused};
use crate::day_place::{Daily, place_in, used_before};
use crate::hearing::resume;
use crate::place::{Stand, end_fault, stand_at};
use crate::walk::{Halt, Job, Place, Reach, advance, halted};
use crate::{Answer, Refused, State};
use calendars::next_counted;
use call_check::check_day_lent;
use day_order::{QUARTERS, SHARE_SLOT, enter, leave, order_words, take_share};
use gates::{Lanes, Used};
use job_order::order_at;
use jobs::Condition;
use word_lists::{at, put};
use worker_gate::Worker;

// From the first gate of an order to its first product, on the lanes in place. Inlined for the stack, as `resume`.
#[inline(always)]
fn begin(host: &Worker<'_>, daily: Daily<'_>, order: u32, lanes: &mut Lanes) -> Halt
    requires { Accepted daily × (order ≤ 96) × (is_run (held daily.day.quarters) order ≡ true) × Long lanes.old }
    ensures long { Long lanes.new }
    ensures halt { (k l : ℕ)
        → halt_on result (within k (first_tail daily.entry.shares.now) lanes.new.first)
        (within l (second_tail daily.entry.shares.now) lanes.new.second)
        ≡ reported (worker host.now)
        (job_steps 32 (drop order (day_gates 32 (held daily.entry.day.quarters) (rows daily.entry.table.now))))
        (cost_to order (used_until (held daily.entry.day.quarters) (counted daily.entry.day.curve) order)) (
          within k (first_tail daily.entry.shares.now) lanes.old.first,
          within l (second_tail daily.entry.shares.now) lanes.old.second,
        ) }
{
    let day = daily.day;
    take_share(daily.shares, order, lanes);
    enter(order, day.n, lanes);
    let used = used_before(day, order);
    let from = Reach {
        gate: 0,
        used: Used {
            a: used.a as usize,
            b: used.b as usize,
            deals: used.deals as usize,
        },
    };
    let words = order_words(order);
    let job = Job {
        orders: &words,
        table: daily.table,
    };
    let h = advance(host, job, Place { order: 0, turn: 0 }, from, lanes);
    let stored = h.stored;
    halted(h.word, order, h.turn, stored)
}

// The other's word is heard at a product of an order. Where the order ends behind it, the next one that is run begins.
fn go_on(
    host: &Worker<'_>,
    daily: Daily<'_>,
    place: Place,
    heard: u32,
    stand: Stand,
    lanes: &mut Lanes,
) -> Halt
    requires { Accepted daily × StandsIn daily place.order place.turn stand × Long lanes.old }
    ensures long { Long lanes.new }
    ensures halt { (k l : ℕ) (u : Stored)
        → halt_on result (within k (first_tail daily.entry.shares.now) lanes.new.first)
        (within l (second_tail daily.entry.shares.now) lanes.new.second)
        ≡ Calls.report (worker host.now)
        (Calls.hear_walk (worker host.now)
        (state_with (within k (first_tail daily.entry.shares.now) lanes.old.first)
        (within l (second_tail daily.entry.shares.now) lanes.old.second) place.order place.turn u) heard
        (seek place.order place.turn (day_steps 32 daily.entry.table.now (held daily.entry.day.quarters)) origin)) }
{
    let order = place.order;
    take_share(daily.shares, order, lanes);
    let words = order_words(order);
    let job = Job {
        orders: &words,
        table: daily.table,
    };
    let there = Place {
        order: 0,
        turn: place.turn,
    };
    let h = resume(host, job, there, heard, stand, lanes);
    let stored = h.stored;
    if h.order == 0 {
        return halted(h.word, order, h.turn, stored);
    }
    leave(order, lanes);
    if order == QUARTERS {
        return halted(0, order + 1, 0, stored);
    }
    let quarters = daily.day.quarters;
    let next = next_counted(quarters, order + 1);
    begin(host, daily, next, lanes)
}

// Checks 1, 12, 16, 17, 5, 6 and 7 come first, and a refusal gives a state of zeros.
pub fn start_day(
    host: u32,
    table: &[u32],
    shares: &[u32],
    calendar: &[u32],
    weekday: u32,
    masks: &[u32],
    deals: &[u32],
) -> Result<Answer, Refused>
    ensures { answer_of result
        ≡ day_start 32 host table.now shares.now (hours calendar.now weekday)
        masks.now deals.now }
{
    let mut lanes = Lanes {
        first: [0u32; 24],
        second: [0u32; 24],
    };
    let day = match check_day_lent(host, table, shares, calendar, weekday, masks, deals) {
        Ok(checked) => checked.day,
        Err(condition) => {
            let zeros = first_state(lanes.first, lanes.second);
            return Err(refused(condition, zeros));
        }
    };
    let quarters = day.quarters;
    let first = next_counted(quarters, 0);
    let host = Worker { host, masks, deals };
    let h = begin(&host, Daily { table, shares, day }, first, &mut lanes);
    put(&mut lanes.first, SHARE_SLOT, 0);
    put(&mut lanes.second, SHARE_SLOT, 0);
    Ok(answered(h, lanes.first, lanes.second))
}

// From the product or refresh where a state stands, on its lanes in place; the word that stood in the share's slot is
// put back.
fn hear_there(
    host: &Worker<'_>,
    daily: Daily<'_>,
    place: Place,
    heard: u32,
    stand: Stand,
    lanes: &mut Lanes,
) -> Halt
    requires { Accepted daily × StandsIn daily place.order place.turn stand × Long lanes.old }
    ensures { (H : Hours) → SameDay (held daily.entry.day.quarters) H
        → ((0, 0)
        ≡ lent_fault
        (lent host.now.host (day_script 32 daily.entry.table.now (length daily.entry.shares.now) H)
        host.now.masks.now host.now.deals.now))
        → halt_on result lanes.new.first lanes.new.second
        ≡ day_hear 32 host.now.host daily.entry.table.now daily.entry.shares.now H
        host.now.masks.now host.now.deals.now
        (state_with lanes.old.first lanes.old.second place.order place.turn stand.walked) heard }
{
    let first = at(&lanes.first, SHARE_SLOT);
    let second = at(&lanes.second, SHARE_SLOT);
    let h = go_on(host, daily, place, heard, stand, lanes);
    put(&mut lanes.first, SHARE_SLOT, first);
    put(&mut lanes.second, SHARE_SLOT, second);
    h
}

impl State {
    // Checks 1, 12, 16, 17, 5, 6 and 7 come first, then 8, 18 and 9; a refusal gives the state back.
    pub fn hear_day(
        self,
        host: u32,
        table: &[u32],
        shares: &[u32],
        calendar: &[u32],
        weekday: u32,
        masks: &[u32],
        deals: &[u32],
        heard: u32,
    ) -> Result<Answer, Refused>
        ensures { answer_of result
            ≡ day_hear 32 host table.now shares.now (hours calendar.now weekday)
            masks.now deals.now (state_of self) heard }
    {
        // before the checks, so that the state's lanes are copied once
        let mut lanes = Lanes {
            first: self.m,
            second: self.mask,
        };
        let checked = match check_day_lent(host, table, shares, calendar, weekday, masks, deals) {
            Ok(checked) => checked,
            Err(condition) => return Err(refused(condition, self)),
        };
        let day = checked.day;
        let order = self.order;
        if QUARTERS < order {
            let end = QUARTERS as usize + 1;
            let condition = end_fault(order as usize, end, self.turn, checked.whole, self.stored);
            return Err(refused(condition, self));
        }
        let Some(place) = place_in(day, table, order, self.turn) else {
            return Err(refused(Condition::NoPlace, self));
        };
        let job = order_words(order);
        let stand = stand_at(
            order_at(&job, 0),
            table,
            used_before(day, order),
            self.turn,
            place,
        );
        if self.stored != stand.walked {
            return Err(refused(Condition::OtherPlaces, self));
        }
        let place = Place {
            order,
            turn: self.turn,
        };
        let host = Worker { host, masks, deals };
        let daily = Daily { table, shares, day };
        let h = hear_there(&host, daily, place, heard, stand, &mut lanes);
        Ok(answered(h, lanes.first, lanes.second))
    }
}
