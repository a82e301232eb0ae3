// The three hosts in one place: preparation, both startings, and every spoken word carried to the other host.
#![tactic(auto)]

ghost use Rattle.std.specs.Prelude.{◌≡◌, Ok};
ghost use Rattle.calls.specs.Calls as Calls;
ghost use Rattle.calls.specs.Scripts.{job_script};
ghost use Rattle.worker.specs.Answers.{state_of};
ghost use Rattle.trio.specs.Together.{trio_of, shared, Full, Speaks, begun, heard, together};

use calls::Stored;
use dealer::{Masks, prepare};
use jobs::Refusal;
use word_lists::copy_front;
use worker::{Answer, Registers, State, start};

// A share of every register, on which the three hosts agree.
#[derive(Clone, Copy, Debug, PartialEq, Eq)]
pub struct Shared {
    pub m: [u32; 16],
    pub l1: [u32; 16],
    pub l2: [u32; 16],
}

// The three hosts at a place of a job: the deals written, host 0's masks, and the last answers of hosts 1 and 2.
#[derive(Clone, Copy, Debug, PartialEq, Eq)]
pub struct Trio {
    pub deals: u32,
    pub masks: Masks,
    pub one: Answer,
    pub two: Answer,
}

// A run whose preparation is turned down: neither host starts, and the hosts hold what they were given.
#[derive(Clone, Copy, Debug, PartialEq, Eq)]
pub struct Refused {
    pub refusal: Refusal,
    pub masks: Masks,
    pub one: State,
    pub two: State,
}

// The state of a host that does not start: its registers as they were given.
fn given(m: [u32; 16], mask: [u32; 16]) -> State
    ensures { state_of result ≡ Calls.given (m, mask) }
{
    let mut first = [0u32; 24];
    let mut second = [0u32; 24];
    copy_front(&m, &mut first, 16);
    copy_front(&mask, &mut second, 16);
    State {
        m: first,
        mask: second,
        order: 0,
        turn: 0,
        stored: Stored {
            a: 0,
            b: 0,
            deals: 0,
        },
    }
}

// Preparation, then both startings, which are lent what the preparation was: none is turned down.
fn begin(
    job: &[u32],
    table: &[u32],
    a: &[u32],
    b: &[u32],
    deals: &mut [u32],
    registers: Shared,
) -> Result<Trio, Refused>
    ensures deals_after { trio_of result deals.new
        ≡ begun (job_script 32 job.now table.now) a.now b.now
        (shared registers)
        deals.old }
    ensures full { Full 16 (shared registers) }
{
    let Shared { m, l1, l2 } = registers;
    let prepared = match prepare(job, table, a, b, deals, Masks { l1, l2 }) {
        Ok(prepared) => prepared,
        Err(refused) => {
            return Err(Refused {
                refusal: refused.refusal,
                masks: refused.masks,
                one: given(m, l1),
                two: given(m, l2),
            });
        }
    };
    let one = start(1, job, table, a, deals, Registers { m, mask: l1 }).unwrap();
    let two = start(2, job, table, b, deals, Registers { m, mask: l2 }).unwrap();
    Ok(Trio {
        deals: prepared.deals,
        masks: prepared.masks,
        one,
        two,
    })
}

// Each host hears the word that the other spoke last; neither is turned down.
fn exchange(job: &[u32], table: &[u32], a: &[u32], b: &[u32], deals: &[u32], s: Trio) -> Trio
    requires { Speaks (heard (job_script 32 job.now table.now) a.now b.now (trio_of (Ok s) deals.now)) }
    ensures { trio_of (Ok result) deals.now
        ≡ heard (job_script 32 job.now table.now) a.now b.now
        (trio_of (Ok s) deals.now) }
{
    let first = s.one.state;
    let second = s.two.state;
    let masks = s.masks;
    let one = first.hear(1, job, table, a, deals, s.two.word).unwrap();
    let two = second.hear(2, job, table, b, deals, s.one.word).unwrap();
    Trio {
        deals: s.deals,
        masks,
        one,
        two,
    }
}

// The whole job, or the preparation's refusal: words go to and fro until the hosts are at the job's end, which their
// places tell and no count.
pub fn run(
    job: &[u32],
    table: &[u32],
    a: &[u32],
    b: &[u32],
    deals: &mut [u32],
    registers: Shared,
) -> Result<Trio, Refused>
    ensures { trio_of result deals.new
        ≡ together (job_script 32 job.now table.now) a.now b.now
        (shared registers)
        deals.old }
{
    let mut s = begin(job, table, a, b, deals, registers)?;
    let orders = (job.len() / 4) as u32;
    while s.one.state.order < orders {
        s = exchange(job, table, a, b, deals, s);
    }
    Ok(s)
}
