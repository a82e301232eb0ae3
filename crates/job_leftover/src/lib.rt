// The part of a mask list that a job leaves unused.
#![tactic(auto)]

ghost use Rattle.std.specs.Prelude.{◌≡◌};
ghost use Rattle.jobs.specs.Counts.{counted};
ghost use Rattle.jobs.specs.Answers.{need, leftover_number, leftover_part};
ghost use Rattle.jobs.specs.Refusals.{number_found};
ghost use Rattle.job_leftover.specs.Unused.{part_of};

use job_check::check;
use jobs::{Condition, Counts, Which};

// What a job with these counts needs of the one list.
fn need(which: Which, counts: Counts) -> u32
    ensures { result ≡ need which (counted counts) }
{
    match which {
        Which::ListA => counts.a,
        Which::ListB => counts.b,
    }
}

// The part of a mask list after the job's need.
pub fn unused<'a>(
    job: &[u32],
    table: &[u32],
    which: Which,
    list: &'a [u32],
) -> Result<&'a [u32], Condition>
    ensures part { part_of result list.now
        ≡ leftover_part (leftover_number 32 job.now table.now which list.now)
        32 job.now table.now which list.now }
    ensures said { number_found result
        ≡ leftover_number 32 job.now table.now which list.now }
{
    let counts = check(job, table)?;
    let first = need(which, counts) as usize;
    if list.len() < first {
        return Err(Condition::ShortMasks);
    }
    Ok(&list[first..])
}

// The same as document 01 gives it: "the whole list if refused", and the "number, or 0 for none, goes into one word
// lent for that alone", in place of a Result.
pub fn leftover<'a>(
    job: &[u32],
    table: &[u32],
    which: Which,
    list: &'a [u32],
    number: &mut u32,
) -> &'a [u32]
    ensures part { result.now
        ≡ leftover_part (leftover_number 32 job.now table.now which list.now)
        32 job.now table.now which list.now }
    ensures said { number.new
        ≡ leftover_number 32 job.now table.now which list.now }
{
    match unused(job, table, which, list) {
        Ok(part) => {
            *number = 0;
            part
        }
        Err(condition) => {
            *number = condition.number();
            list
        }
    }
}
