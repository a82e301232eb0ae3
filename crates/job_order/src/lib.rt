// One order of a job: its words, and its faults.
#![tactic(auto)]

ghost use Rattle.std.specs.Prelude.{◌≡◌};
ghost use Rattle.jobs.specs.Job.{order_at};

use programs::Order;
use word_lists::word_at;

mod faults;

pub use faults::order_fault;

// The order at an index of a job.
pub fn order_at(job: &[u32], i: usize) -> Order
    ensures { result ≡ order_at job.now i }
{
    if job.len() <= i {
        return Order {
            kind: 0,
            target: 0,
            source: 0,
            fourth: 0,
        };
    }
    let first = i * 4;
    // One test for the four words; a job that is cut short is read word by word.
    if first + 3 < job.len() {
        return Order {
            kind: job[first],
            target: job[first + 1],
            source: job[first + 2],
            fourth: job[first + 3],
        };
    }
    let kind = word_at(job, first);
    let target = word_at(job, first + 1);
    let source = word_at(job, first + 2);
    let fourth = word_at(job, first + 3);
    Order {
        kind,
        target,
        source,
        fourth,
    }
}
