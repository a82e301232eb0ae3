// A place of a day (R-3, R-6): what the quarters before it use, and where it is in its order.
ghost use Rattle.std.specs.Prelude.{◌≡◌, ◌≤◌};
ghost use Rattle.programs.specs.Sizes.{times_cost};
ghost use Rattle.jobs.specs.Counts.{counted};
ghost use Rattle.calendars.specs.Quarters.{held};
ghost use Rattle.worker.specs.Days.{few_counts, used_until, sought_run};

use calendars::counted_before;
use call_check::Day;
use day_order::{is_run, order_words};
use job_order::order_at;
use jobs::Counts;
use program_seek::seek;
use programs::GatePlace;

// A day that was accepted: its table and its day list, and what the check found of it. That it was is one
// word of a clause, `Accepted`, which an invariant would not make plainer.
#[derive(Clone, Copy)]
pub(crate) struct Daily<'a> {
    pub table: &'a [u32],
    pub shares: &'a [u32],
    pub day: Day,
}

// What n quarters use, each of them a curve.
fn used_by(curve: Counts, n: u32) -> Counts
    requires { few_counts (counted curve) × (n ≤ 96) }
    ensures { counted result ≡ times_cost n (counted curve) }
{
    Counts {
        deals: curve.deals * n,
        words: curve.words * n,
        a: curve.a * n,
        b: curve.b * n,
    }
}

// What the orders before one use: the quarters that count.
pub(crate) fn used_before(day: Day, order: u32) -> Counts
    requires { few_counts (counted day.curve) × (order ≤ 96) }
    ensures { counted result ≡ used_until (held day.quarters) (counted day.curve) order }
{
    let quarters = day.quarters;
    let curve = day.curve;
    used_by(curve, counted_before(quarters, order))
}

// The product or refresh at a turn of an order; a quarter that is left out has none.
pub(crate) fn place_in(day: Day, table: &[u32], order: u32, turn: u32) -> Option<GatePlace>
    ensures { result ≡ sought_run (held day.quarters) table.now order turn }
{
    let quarters = day.quarters;
    if !is_run(quarters, order) {
        return None;
    }
    let job = order_words(order);
    seek(order_at(&job, 0), table, turn)
}
