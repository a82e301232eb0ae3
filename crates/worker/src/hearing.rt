// Hearing: the place of a state is found, its own word worked out again, and the walk goes on with both.
ghost use Rattle.std.specs.Prelude.{◌≡◌, ◌^◌, ◌<◌, drop};
ghost use Rattle.tables.specs.Table.{rows};
ghost use Rattle.jobs.specs.Job.{job_gates, order_at};
ghost use Rattle.calls.specs.declared.Stored.{Stored};
ghost use Rattle.calls.specs.Places.{found};
ghost use Rattle.calls.specs.Calls as Calls;
ghost use Rattle.calls.specs.Scripts.{job_script};
ghost use Rattle.calls.specs.Lent.{lent, worker_with};
ghost use Rattle.worker.specs.Answers.{answer_of, state_of, state_with, halt_on};
ghost use Rattle.worker_gate.specs.Workers.{worker, used_to};
ghost use Rattle.walks.specs.Halts.{steps_from};
ghost use Rattle.worker.specs.Jobs.{Accepted, StandsIn};

use crate::answering::{answered, refused};
use crate::place::{Stand, end_fault, stand_at};
use crate::walk::{Halt, Job, Place, Reach, advance};
use crate::{Answer, Refused, State};
use call_check::check_lent;
use gates::{Lanes, Used};
use job_order::order_at;
use jobs::Condition;
use program_seek::seek;
use worker_gate::Worker;

// The other's word is heard at the product or refresh where the state stands; the walk goes on from the walk's places
// there. Inlined, as `begin` of a day: a frame less below the lanes keeps each call within the header's bound on stack.
#[inline(always)]
pub(crate) fn resume(
    host: &Worker<'_>,
    job: Job<'_>,
    place: Place,
    heard: u32,
    stand: Stand,
    lanes: &mut Lanes,
) -> Halt
    requires { Accepted job × StandsIn job place.order place.turn stand }
    ensures { (u : Stored) → halt_on result lanes.new.first lanes.new.second
        ≡ Calls.report (worker host.now)
        (Calls.hear_walk (worker host.now)
        (state_with lanes.old.first lanes.old.second place.order place.turn u) heard
        (found (steps_from 32 stand.at.gate (drop place.order (job_gates 32 job.entry.orders.now job.entry.table.now)))
        (used_to place.order place.turn stand.at.used))) }
{
    let stored = stand.walked;
    host.meet(stand.gate, stand.at.used, heard, lanes);
    let next = Place {
        order: place.order,
        turn: place.turn + 1,
    };
    let from = Reach {
        gate: stand.at.gate + 1,
        used: Used {
            a: stored.a as usize,
            b: stand.at.used.b + 1,
            deals: stored.deals as usize,
        },
    };
    advance(host, job, next, from, lanes)
}

impl State {
    // Checks 1 to 7 come first, then 8, 18 and 9; a refusal gives the state back.
    pub fn hear(
        self,
        host: u32,
        job: &[u32],
        table: &[u32],
        masks: &[u32],
        deals: &[u32],
        heard: u32,
    ) -> Result<Answer, Refused>
        ensures { answer_of result
            ≡ Calls.hear
            (lent host (job_script 32 job.now table.now) masks.now
            deals.now)
            (state_of self) heard }
    {
        let order = self.order as usize;
        let before = match check_lent(host, job, table, masks, deals, order) {
            Ok(before) => before,
            Err(refusal) => {
                return Err(Refused {
                    refusal,
                    state: self,
                });
            }
        };
        let n = job.len() / 4;
        if n <= order {
            let condition = end_fault(order, n, self.turn, before, self.stored);
            return Err(refused(condition, self));
        }
        let o = order_at(job, order);
        let Some(place) = seek(o, table, self.turn) else {
            return Err(refused(Condition::NoPlace, self));
        };
        let stand = stand_at(o, table, before, self.turn, place);
        if self.stored != stand.walked {
            return Err(refused(Condition::OtherPlaces, self));
        }
        let mut lanes = Lanes {
            first: self.m,
            second: self.mask,
        };
        let place = Place {
            order: self.order,
            turn: self.turn,
        };
        let host = Worker { host, masks, deals };
        let h = resume(
            &host,
            Job { orders: job, table },
            place,
            heard,
            stand,
            &mut lanes,
        );
        Ok(answered(h, lanes.first, lanes.second))
    }
}
