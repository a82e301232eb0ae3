// Checking a job, what it leaves of a mask list, and the house table.
ghost use Rattle.std.specs.Prelude.{◌≡◌, length};
ghost use Rattle.tables.specs.Table.{house};
ghost use Rattle.jobs.specs.Answers.{check_job, leftover_number};
ghost use Rattle.jobs.specs.declared.Which.TheVariants.{ListA, ListB};
ghost use Rattle.lamphiek.specs.Checking.{checked, counts_left, unused, last};

use crate::{Answer, turned_down};
use job_check::check;
use job_leftover::leftover;
use jobs::Which;
use tables::HOUSE;

// Checks a job with its table, and writes its counts. Numbers 2 to 5.
#[unsafe(no_mangle)]
pub extern "C" fn lamphiek_check(job: &[u32], table: &[u32], counts: &mut [u32; 4]) -> Answer
    ensures answer { result ≡ checked (check_job 32 job.now table.now) }
    ensures counts { counts.new
        ≡ counts_left (check_job 32 job.now table.now) counts.old }
{
    match check(job, table) {
        Ok(found) => {
            *counts = [found.deals, found.words, found.a, found.b];
            Answer {
                number: 0,
                index: 0,
                count: 0,
                word: 0,
            }
        }
        Err(refusal) => turned_down(refusal),
    }
}

// How many words of a mask list, its last ones, a job leaves unused; all of them where it is refused.
fn unused_of(job: &[u32], table: &[u32], which: Which, list: &[u32], number: &mut u32) -> usize
    ensures count { result
        ≡ length (unused which job.now table.now list.now) }
    ensures part { last result list.now
        ≡ unused which job.now table.now list.now }
    ensures said { number.new
        ≡ leftover_number 32 job.now table.now which list.now }
{
    let rest = leftover(job, table, which, list, number);
    rest.len()
}

// Unused words of list A. Numbers 2 to 6.
#[unsafe(no_mangle)]
pub extern "C" fn lamphiek_unused_a(
    job: &[u32],
    table: &[u32],
    a: &[u32],
    number: &mut u32,
) -> usize
    ensures count { result
        ≡ length (unused ListA job.now table.now a.now) }
    ensures part { last result a.now
        ≡ unused ListA job.now table.now a.now }
    ensures said { number.new
        ≡ leftover_number 32 job.now table.now ListA a.now }
{
    unused_of(job, table, Which::ListA, a, number)
}

// Unused words of list B. Numbers 2 to 6. Two exports, since C has them as two; `unused_of` is both.
#[unsafe(no_mangle)]
pub extern "C" fn lamphiek_unused_b(
    job: &[u32],
    table: &[u32],
    b: &[u32],
    number: &mut u32,
) -> usize
    ensures count { result
        ≡ length (unused ListB job.now table.now b.now) }
    ensures part { last result b.now
        ≡ unused ListB job.now table.now b.now }
    ensures said { number.new
        ≡ leftover_number 32 job.now table.now ListB b.now }
{
    unused_of(job, table, Which::ListB, b, number)
}

// The house table's eight rows.
#[unsafe(no_mangle)]
pub extern "C" fn lamphiek_house(table: &mut [u32; 16])
    ensures { table.new ≡ house }
{
    *table = HOUSE;
}
