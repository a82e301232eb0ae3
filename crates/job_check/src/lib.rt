// Checking a job with its table: the one walk over its orders, for their faults and their counts.
#![tactic(auto)]

ghost use Rattle.std.specs.Prelude.{◌≡◌};
ghost use Rattle.jobs.specs.Job.{ill_sized};
ghost use Rattle.jobs.specs.Answers.{verdict, surveyed, counted_before, check_job, counts_before};

use crate::cost::{counts_of, curve_tallies, order_tally, rows_of};
use job_order::{order_at, order_fault};
use jobs::{Condition, Counts, Refusal, Survey};

mod cost;

// Whether the words are no list of 1 to 64 orders.
fn ill_sized(job: &[u32]) -> bool
    ensures { result ≡ ill_sized job.now }
{
    let n = job.len();
    if n == 0 {
        return true;
    }
    if 256 < n {
        return true;
    }
    n % 4 != 0
}

// Checks a job with its table. The counts before a place are taken on the way, so that whoever goes on from there need
// not walk again.
pub fn survey(job: &[u32], table: &[u32], place: usize) -> Result<Survey, Refusal>
    ensures found { surveyed result ≡ check_job 32 job.now table.now }
    ensures passed { counted_before result
        ≡ counts_before 32 job.now table.now place }
{
    if ill_sized(job) {
        return Err(Refusal {
            condition: Condition::IllSized,
            index: 0,
        });
    }
    let ruled = tables::keeps_rules(table);
    let curve = curve_tallies(rows_of(table, ruled));
    let mut whole = 0;
    let mut before = 0;
    for i in 0..job.len() / 4 {
        let order = order_at(job, i);
        if let Some(condition) = order_fault(order, ruled) {
            let index = i as u32;
            return Err(Refusal { condition, index });
        }
        whole += order_tally(order, curve);
        if i < place {
            before = whole;
        }
    }
    Ok(Survey {
        whole: counts_of(whole),
        before: counts_of(before),
    })
}

// The first fault of a job with its table, or its counts.
pub fn check(job: &[u32], table: &[u32]) -> Result<Counts, Refusal>
    ensures { verdict result ≡ check_job 32 job.now table.now }
{
    let found = survey(job, table, 0)?;
    Ok(found.whole)
}
