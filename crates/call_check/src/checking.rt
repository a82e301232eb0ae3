// What a call is lent: the checks 1 to 7 of document 01, "Turned down", for each host.
ghost use Rattle.std.specs.Prelude.{◌≡◌, ◌*◌, take, IfOk};
ghost use Rattle.jobs.specs.Job.{job_fault, job_cost};
ghost use Rattle.jobs.specs.Counts.{counted};
ghost use Rattle.jobs.specs.Refusals.{number_found, fault_found};
ghost use Rattle.calls.specs.Scripts.{job_script};
ghost use Rattle.calls.specs.Lent.{lent, or_else, lent_fault, dealer_lists_fault, dealer_fault};
ghost use Rattle.call_check.specs.Needs.{needs_of};

use job_check::survey;
use jobs::{Condition, Counts, Refusal};

// What a host needs of a job's counts: host 1 its words of A, host 2 its words of B and its deals, host 0 all three.
// The host is the number that a call names, whatever it is: number 1 refuses others.
pub(crate) fn needs_of(host: u32, whole: Counts) -> Counts
    ensures { counted result ≡ needs_of host (counted whole) }
{
    match host {
        1 => Counts {
            deals: 0,
            words: 0,
            a: whole.a,
            b: 0,
        },
        2 => Counts {
            deals: whole.deals,
            words: 0,
            a: 0,
            b: whole.b,
        },
        _ => whole,
    }
}

// Conditions 6 and 7.
pub(crate) fn check_lists(
    need: Counts,
    a: &[u32],
    b: &[u32],
    deals: &[u32],
) -> Result<(), Condition>
    ensures { number_found result
        ≡ dealer_lists_fault (counted need) a.now b.now deals.now }
{
    if a.len() < need.a as usize {
        return Err(Condition::ShortMasks);
    }
    if b.len() < need.b as usize {
        return Err(Condition::ShortMasks);
    }
    if deals.len() < need.deals as usize {
        return Err(Condition::ShortDeals);
    }
    Ok(())
}

// Conditions 2 to 7, and the counts of the orders before a place.
fn check_job(
    host: u32,
    job: &[u32],
    table: &[u32],
    a: &[u32],
    b: &[u32],
    deals: &[u32],
    place: usize,
) -> Result<Counts, Refusal>
    ensures fault { fault_found result
        ≡ or_else (job_fault 32 job.now table.now)
        (dealer_lists_fault (needs_of host (job_cost 32 job.now table.now)) a.now
        b.now
        deals.now) }
    ensures counts { IfOk result (λ k. counted k ≡ job_cost 32 (take (place * 4) job.now) table.now) }
{
    let found = survey(job, table, place)?;
    check_lists(needs_of(host, found.whole), a, b, deals)?;
    Ok(found.before)
}

// Hosts 1 and 2: conditions 1 to 7, and the counts of the orders before a place. The one list is lent as A and as B.
pub fn check_lent(
    host: u32,
    job: &[u32],
    table: &[u32],
    masks: &[u32],
    deals: &[u32],
    place: usize,
) -> Result<Counts, Refusal>
    ensures fault { fault_found result
        ≡ lent_fault
        (lent host (job_script 32 job.now table.now) masks.now
        deals.now) }
    ensures counts { IfOk result (λ k. counted k ≡ job_cost 32 (take (place * 4) job.now) table.now) }
{
    match host {
        1 | 2 => check_job(host, job, table, masks, masks, deals, place),
        _ => Err(Condition::OtherHost.into()),
    }
}

// Host 0: conditions 2 to 7, and the counts of all orders, as before a place that none reaches.
pub fn check_dealer(
    job: &[u32],
    table: &[u32],
    a: &[u32],
    b: &[u32],
    deals: &[u32],
) -> Result<Counts, Refusal>
    ensures fault { fault_found result
        ≡ dealer_fault (job_script 32 job.now table.now) a.now b.now
        deals.now }
    ensures counts { IfOk result (λ k. counted k ≡ job_cost 32 job.now table.now) }
{
    check_job(0, job, table, a, b, deals, job.len())
}
