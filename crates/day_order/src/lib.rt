// An order of a day (R-3) on a host's lanes: whether it is run (R-6), its words as one order of a job, the share of its
// quarter, and what is done before its gates and behind them. All three hosts go through these.
#![tactic(auto)]

ghost use Rattle.std.specs.Prelude.{◌≡◌, ◌+◌, ◌*◌, slice_set};
ghost use Rattle.words.specs.Words.{add};
ghost use Rattle.gates.specs.Steps as Steps;
ghost use Rattle.calendars.specs.Quarters.{held, tabled};
ghost use Rattle.days.specs.Orders.{is_run, order_words, with_share, entered, left, summed, counted};

use calendars::{Quarters, counts_at, factor};
use gates::Lanes;
use programs::{ACC_SLOT, Kind, T_SLOT};
use word_lists::{at, put, word_after, word_at};
use words::wrapping_mul;

// A day's quarters; the mean is the order behind them.
pub const QUARTERS: u32 = 96;

// The slot of the share at hand, a register that no order of a day writes.
pub const SHARE_SLOT: u32 = 15;

const SHIFT: u32 = 16;

// A quarter that counts, or the mean.
#[tactic(auto, unfolding(days::specs::Orders::is_run))]
pub fn is_run(quarters: Quarters, order: u32) -> bool
    ensures { result ≡ is_run (held quarters) order }
{
    if order < QUARTERS {
        counts_at(quarters, order)
    } else {
        true
    }
}

// The exact curve of a quarter; the exact truncation of the mean.
#[tactic(auto, unfolding(days::specs::Orders::order_words, days::specs::Orders::own_order))]
pub fn order_words(order: u32) -> [u32; 4]
    ensures { result ≡ order_words order }
{
    if order < QUARTERS {
        [Kind::Curve as u32, ACC_SLOT, SHARE_SLOT, 0]
    } else {
        [Kind::Exact as u32, 0, ACC_SLOT, SHIFT]
    }
}

// The two words of an order's share, into the slot of the share at hand. The mean has none, and finds 0 behind the
// list.
pub fn take_share(shares: &[u32], order: u32, lanes: &mut Lanes)
    ensures { (lanes.new.first ≡ with_share (Steps.at shares.now (order * 2)) lanes.old.first)
        × (lanes.new.second ≡ with_share (Steps.at shares.now (order * 2 + 1)) lanes.old.second) }
{
    let i = order as usize * 2;
    put(&mut lanes.first, SHARE_SLOT, word_at(shares, i));
    put(&mut lanes.second, SHARE_SLOT, word_after(shares, i));
}

#[tactic(auto, unfolding(days::specs::Orders::entered))]
fn multiply(by: u32, lane: &mut [u32; 24])
    ensures { lane.new ≡ entered 32 by 96 lane.old }
{
    let sum = at(lane, 0);
    put(lane, ACC_SLOT, wrapping_mul(sum, by));
}

// Before an order's gates: the mean of n counted quarters multiplies the sum.
#[tactic(auto, unfolding(days::specs::Orders::entered))]
pub fn enter(order: u32, n: u32, lanes: &mut Lanes)
    ensures { (lanes.new.first ≡ entered 32 (tabled n) order lanes.old.first)
        × (lanes.new.second ≡ entered 32 (tabled n) order lanes.old.second) }
{
    if order < QUARTERS {
        return;
    }
    let by = factor(n);
    multiply(by, &mut lanes.first);
    multiply(by, &mut lanes.second);
}

// Slot a is added to slot d.
#[tactic(auto, unfolding(words::specs::Words::add))]
fn add_to(lane: &mut [u32; 24], d: u32, a: u32)
    ensures { lane.new
        ≡ slice_set lane.old d
        (add 32 (Steps.at lane.old d) (Steps.at lane.old a)) }
{
    let x = at(lane, d);
    let y = at(lane, a);
    put(lane, d, std::num::wrapping_add_u32(x, y));
}

// Register 0 gets the sum, and register 1 the count.
fn add_up(lane: &mut [u32; 24])
    ensures { lane.new ≡ counted 32 (summed 32 lane.old) }
{
    add_to(lane, 0, ACC_SLOT);
    add_to(lane, 1, T_SLOT);
}

// Behind an order's gates: a quarter's value and R-1's a are added up.
#[tactic(auto, unfolding(days::specs::Orders::left))]
pub fn leave(order: u32, lanes: &mut Lanes)
    ensures { (lanes.new.first ≡ left 32 order lanes.old.first)
        × (lanes.new.second ≡ left 32 order lanes.old.second) }
{
    if order < QUARTERS {
        add_up(&mut lanes.first);
        add_up(&mut lanes.second);
    }
}
