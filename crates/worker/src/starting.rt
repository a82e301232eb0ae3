// Starting host 1 or 2: from its registers to the first product or refresh, or to the end.
ghost use Rattle.std.specs.Prelude.{◌≡◌};
ghost use Rattle.calls.specs.Calls as Calls;
ghost use Rattle.calls.specs.Scripts.{job_script};
ghost use Rattle.calls.specs.Lent.{lent};
ghost use Rattle.worker.specs.Answers.{answer_of, lanes_of};

use crate::answering::{answered, first_state};
use crate::walk::{Job, Place, Reach, advance};
use crate::{Answer, Refused, Registers};
use call_check::check_lent;
use gates::{Lanes, Used};
use word_lists::copy_front;
use worker_gate::Worker;

// Checks 1 to 7 come first, and a refusal gives the registers back.
pub fn start(
    host: u32,
    job: &[u32],
    table: &[u32],
    masks: &[u32],
    deals: &[u32],
    registers: Registers,
) -> Result<Answer, Refused>
    ensures { answer_of result
        ≡ Calls.start
        (lent host (job_script 32 job.now table.now) masks.now deals.now)
        (lanes_of registers) }
{
    let mut lanes = Lanes {
        first: [0u32; 24],
        second: [0u32; 24],
    };
    copy_front(&registers.m, &mut lanes.first, 16);
    copy_front(&registers.mask, &mut lanes.second, 16);
    if let Err(refusal) = check_lent(host, job, table, masks, deals, 0) {
        let state = first_state(lanes.first, lanes.second);
        return Err(Refused { refusal, state });
    }
    let place = Place { order: 0, turn: 0 };
    let from = Reach {
        gate: 0,
        used: Used {
            a: 0,
            b: 0,
            deals: 0,
        },
    };
    let host = Worker { host, masks, deals };
    let h = advance(&host, Job { orders: job, table }, place, from, &mut lanes);
    Ok(answered(h, lanes.first, lanes.second))
}
