// Host 0's preparation of a job: its deals, in gate order, and its masks of all registers.
ghost use Rattle.std.specs.Prelude.{◌≡◌, List, map, ℕ, ◌^◌, ◌<◌, length, take, drop};
ghost use Rattle.gates.specs.Meaning.{meaning};
ghost use Rattle.gates.specs.Codes.{step_of};
ghost use Rattle.tables.specs.Table.{rows};
ghost use Rattle.program_fetch.specs.Pieces.{piece_gates};
ghost use Rattle.jobs.specs.Job.{steps_of};
ghost use Rattle.calls.specs.Scripts.{job_script};
ghost use Rattle.calls.specs.Calls as Calls;
ghost use Rattle.gates.specs.Steps.{Lane};
ghost use Rattle.walks.specs.Dealers.{dealer, Counts, dealing, deal_all, Room};
ghost use Rattle.dealer_gate.specs.Dealers.{dealer_on};
ghost use Rattle.dealer.specs.Answers.{answer};

use crate::{Masks, Prepared, Refused};
use call_check::check_dealer;
use dealer_gate::{Lists, deal_gate};
use gate_shape::used_by;
use gates::{GateCode, Lanes, Used};
use job_add::{add_in_place, adds_here};
use job_order::order_at;
use program_fetch::{Piece, gate_at, piece_at};
use word_lists::copy_front;

// The masks of the registers, before the temporaries: written over others, since new ones would be filled with zeros
// first and copied into the answer.
pub(crate) fn registers(lanes: &Lanes, masks: &mut Masks)
    ensures { (masks.new.l1 ≡ take 16 lanes.now.first) × (masks.new.l2 ≡ take 16 lanes.now.second) }
{
    copy_front(&lanes.first, &mut masks.l1, 16);
    copy_front(&lanes.second, &mut masks.l2, 16);
}

// What is used behind a gate.
fn behind(g: GateCode, used: Used) -> Used
    requires { (used.a < 2 ^ 62) × (used.b < 2 ^ 62) × (used.deals < 2 ^ 62) }
    ensures { (A B : List ℕ) (l1 l2 : Lane) (buffer : List ℕ)
        → Counts (dealing A B (step_of 32 g) (dealer used l1 l2 buffer)) result }
{
    let more = used_by(g);
    Used {
        a: used.a + more.a,
        b: used.b + more.b,
        deals: used.deals + more.deals,
    }
}

// The gates of a piece of a program, from where it stands to its last.
fn deal_piece(
    p: Piece,
    table: &[u32],
    lists: Lists<'_>,
    used: Used,
    lanes: &mut Lanes,
    deals: &mut [u32],
) -> Used
    requires { (p.end ≡ length (piece_gates 32 (rows table.now) p))
        × Room lists.a.now lists.b.now (map (meaning 32) (drop p.from (piece_gates 32 (rows table.now) p)))
        (dealer_on used lanes.old deals.old) }
    ensures { dealer_on result lanes.new deals.new
        ≡ deal_all lists.entry.a.now lists.entry.b.now
        (map (meaning 32) (drop p.from (piece_gates 32 (rows table.now) p)))
        (dealer_on used lanes.old deals.old) }
{
    let mut at = used;
    for i in p.from..p.end {
        let gate = gate_at(p, table, i);
        deal_gate(gate, lists, at, lanes, deals);
        at = behind(gate, at);
    }
    at
}

// The orders of a job, from its first to its last: an addition or subtraction at once (R-2), the others piece by piece.
// No count runs over this: an order is gone through at once or in several pieces.
pub(crate) fn deal_job(
    job: &[u32],
    table: &[u32],
    lists: Lists<'_>,
    used: Used,
    lanes: &mut Lanes,
    deals: &mut [u32],
) -> Used
    requires { Room lists.a.now lists.b.now (steps_of 32 job.now table.now)
        (dealer_on used lanes.old deals.old) }
    ensures { dealer_on result lanes.new deals.new
        ≡ deal_all lists.entry.a.now lists.entry.b.now (steps_of 32 job.now table.now)
        (dealer_on used lanes.old deals.old) }
{
    let n = job.len() / 4;
    let mut at = used;
    let mut o = 0;
    let mut gate = 0;
    while o < n {
        let order = order_at(job, o);
        if adds_here(order, gate) {
            add_in_place(order, lanes);
            o += 1;
            continue;
        }
        let piece = piece_at(order, table, gate);
        at = deal_piece(piece, table, lists, at, lanes, deals);
        if piece.last {
            o += 1;
            gate = 0;
        } else {
            gate += piece.end - piece.from;
        }
    }
    at
}

// Refused, it gives back its masks and writes nothing; the job has been checked before any deal is written.
pub fn prepare(
    job: &[u32],
    table: &[u32],
    a: &[u32],
    b: &[u32],
    deals: &mut [u32],
    mut masks: Masks,
) -> Result<Prepared, Refused>
    ensures { answer result deals.new
        ≡ Calls.prepare (job_script 32 job.now table.now) a.now b.now
        deals.old
        (masks.l1, masks.l2) }
{
    let mut lanes = Lanes {
        first: [0u32; 24],
        second: [0u32; 24],
    };
    copy_front(&masks.l1, &mut lanes.first, 16);
    copy_front(&masks.l2, &mut lanes.second, 16);
    let counts = match check_dealer(job, table, a, b, deals) {
        Ok(counts) => counts,
        Err(refusal) => return Err(Refused { refusal, masks }),
    };
    let none = Used {
        a: 0,
        b: 0,
        deals: 0,
    };
    let used = deal_job(job, table, Lists { a, b }, none, &mut lanes, deals);
    // as many as the check counted, so they fit a word
    prove!(used.deals == counts.deals as usize);
    registers(&lanes, &mut masks);
    Ok(Prepared {
        deals: used.deals as u32,
        masks,
    })
}
