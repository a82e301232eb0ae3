// Host 0's preparation of a day (R-3). Each order of a day that is run (R-6) is dealt as one order of a job, with the
// share of its quarter in a slot of the lanes, which is 0 again in the masks given back.
ghost use Rattle.std.specs.Prelude.{◌≡◌, length};
ghost use Rattle.walks.specs.Dealers.{dealer, outset, deal_all, Room};
ghost use Rattle.calendars.specs.Ranges.{number};
ghost use Rattle.calendars.specs.Quarters.{held};
ghost use Rattle.days.specs.Day.{hours, day_steps};
ghost use Rattle.days.specs.DayCalls.{day_prepare};
ghost use Rattle.days.specs.Orders.{within, first_tail, second_tail};
ghost use Rattle.day_order.specs.Long.{Long};
ghost use Rattle.dealer.specs.Answers.{answer, no_masks};

use crate::preparing::{deal_job, registers};
use crate::{Masks, Prepared, Refused};
use call_check::{Day, check_day_dealer};
use day_order::{QUARTERS, SHARE_SLOT, enter, is_run, leave, order_words, take_share};
use dealer_gate::Lists;
use gates::{Lanes, Used};
use jobs::Condition;
use word_lists::put;

// The orders of a day, from the first quarter to the mean; a quarter that is left out has no gates.
fn deal_day(
    table: &[u32],
    shares: &[u32],
    day: Day,
    lists: Lists<'_>,
    lanes: &mut Lanes,
    deals: &mut [u32],
) -> Used
    requires { (length shares.now ≡ 192) × Long lanes.old × (day.n ≡ number (held day.quarters) 0 96)
        × Room lists.a.now lists.b.now (day_steps 32 table.now (held day.quarters))
        (outset lanes.old.first lanes.old.second deals.old) }
    ensures long { Long lanes.new }
    ensures dealt { dealer result (within 0 (first_tail shares.now) lanes.new.first)
        (within 0 (second_tail shares.now) lanes.new.second) deals.new
        ≡ deal_all lists.entry.a.now lists.entry.b.now (day_steps 32 table.now (held day.quarters))
        (outset (within 0 (first_tail shares.now) lanes.old.first)
        (within 0 (second_tail shares.now) lanes.old.second) deals.old) }
{
    let quarters = day.quarters;
    let mut used = Used {
        a: 0,
        b: 0,
        deals: 0,
    };
    for o in 0..=QUARTERS {
        if !is_run(quarters, o) {
            continue;
        }
        take_share(shares, o, lanes);
        enter(o, day.n, lanes);
        let job = order_words(o);
        used = deal_job(&job, table, lists, used, lanes, deals);
        leave(o, lanes);
    }
    used
}

fn refused(condition: Condition) -> Refused
    ensures { result ≡ no_masks condition }
{
    let zeros = [0u32; 16];
    Refused {
        refusal: condition.into(),
        masks: Masks {
            l1: zeros,
            l2: zeros,
        },
    }
}

// 12, 16, 17, 5, 6 and 7 come first; refused, it gives masks of zeros and writes nothing.
pub fn prepare_day(
    table: &[u32],
    shares: &[u32],
    calendar: &[u32],
    weekday: u32,
    a: &[u32],
    b: &[u32],
    deals: &mut [u32],
) -> Result<Prepared, Refused>
    ensures { answer result deals.new
        ≡ day_prepare 32 table.now shares.now (hours calendar.now weekday)
        a.now b.now deals.old }
{
    let found = match check_day_dealer(table, shares, calendar, weekday, a, b, deals) {
        Ok(found) => found,
        Err(condition) => return Err(refused(condition)),
    };
    let mut lanes = Lanes {
        first: [0u32; 24],
        second: [0u32; 24],
    };
    let used = deal_day(table, shares, found.day, Lists { a, b }, &mut lanes, deals);
    put(&mut lanes.first, SHARE_SLOT, 0);
    put(&mut lanes.second, SHARE_SLOT, 0);
    let mut masks = Masks {
        l1: [0u32; 16],
        l2: [0u32; 16],
    };
    registers(&lanes, &mut masks);
    Ok(Prepared {
        deals: used.deals as u32,
        masks,
    })
}
