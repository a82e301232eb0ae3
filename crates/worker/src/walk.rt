// A host's walk from gate to gate: within a piece of a program up to the next product or refresh, and over the pieces
// of the orders of a job. Additions and subtractions are done at once (R-2).
ghost use Rattle.std.specs.Prelude.{◌≡◌, ℕ, ◌/◌, ◌+◌, ◌^◌, ◌≤◌, ◌<◌, [], ◌∷◌, length, drop, MatchOption};
ghost use Rattle.gates.specs.Codes.{fetched, read, step_of};
ghost use Rattle.gates.specs.Walk.{Exchanging};
ghost use Rattle.gates.specs.Steps.{Lane};
ghost use Rattle.gates.specs.Hosts.{pair_of};
ghost use Rattle.tables.specs.Table.{rows};
ghost use Rattle.program_fetch.specs.Pieces.{piece_gates};
ghost use Rattle.jobs.specs.Job.{job_gates};
ghost use Rattle.calls.specs.Calls.{stored_places};
ghost use Rattle.worker_gate.specs.Workers.{worker, used_to};
ghost use Rattle.walks.specs.Halts.{going_on, reported, steps_from, Going};
ghost use Rattle.worker.specs.Answers.{halt_on};
ghost use Rattle.worker.specs.Jobs.{Accepted};

use calls::Stored;
use gate_shape::{exchanges, used_by};
use gates::{GateCode, Lanes, Used};
use job_add::{add_in_place, adds_here};
use job_order::order_at;
use program_fetch::{Piece, gate_at, piece_at};
use worker_gate::Worker;

// A job that was accepted, with the table that it runs on.
#[derive(Clone, Copy)]
pub(crate) struct Job<'a> {
    pub orders: &'a [u32],
    pub table: &'a [u32],
}

// A place in a job or a day: the order, and which of its products and refreshes.
#[derive(Clone, Copy)]
pub(crate) struct Place {
    pub order: u32,
    pub turn: u32,
}

// Where a walk stands: at a gate, of an order or of a piece of it, with so much used before it.
#[derive(Clone, Copy)]
pub(crate) struct Reach {
    pub gate: usize,
    pub used: Used,
}

impl Reach {
    // The walk's places at a product or refresh that uses so much more: with its own words (R-7), one of B among them.
    pub(crate) fn places_with(self, more: Used) -> Stored
        requires { (more.a ≤ 2) × (more.deals ≤ 1) × (self.used.a + 4 < 2 ^ 32)
            × (self.used.deals + 4 < 2 ^ 32) × (self.used.b + 4 < 2 ^ 32) }
        ensures { result
            ≡ stored_places (self.used.a + more.a) (self.used.b + 1) (self.used.deals + more.deals) }
    {
        Stored {
            a: (self.used.a + more.a) as u32,
            b: self.used.b as u32 + 1,
            deals: (self.used.deals + more.deals) as u32,
        }
    }

    // The walk's places behind the last gate.
    fn places(self) -> Stored
        requires { (self.used.a < 2 ^ 32) × (self.used.deals < 2 ^ 32) × (self.used.b < 2 ^ 32) }
        ensures { result ≡ stored_places self.used.a self.used.b self.used.deals }
    {
        Stored {
            a: self.used.a as u32,
            b: self.used.b as u32,
            deals: self.used.deals as u32,
        }
    }
}

// Behind a gate that exchanges nothing and uses so much more: no word of B. Host 0's `behind` asks a bound on B too,
// and one function for both would be public with a `requires`.
fn past(used: Used, more: Used) -> Used
    requires { (more.a ≤ 2) × (more.deals ≤ 1) × (used.a < 2 ^ 62) × (used.deals < 2 ^ 62) }
    ensures { (result.a ≡ used.a + more.a) × (result.b ≡ used.b) × (result.deals ≡ used.deals + more.deals) }
{
    Used {
        a: used.a + more.a,
        b: used.b,
        deals: used.deals + more.deals,
    }
}

// Where a walk through a piece stopped: what was used before, and the product or refresh there; none past the last
// gate.
#[derive(Clone, Copy)]
struct Stop {
    used: Used,
    gate: Option<GateCode>,
}

// Where a walk through a job halted: the word given, the place, and the walk's places there.
#[derive(Clone, Copy)]
pub(crate) struct Halt {
    pub word: u32,
    pub order: u32,
    pub turn: u32,
    pub stored: Stored,
}

pub(crate) fn halted(word: u32, order: u32, turn: u32, stored: Stored) -> Halt
    ensures { (m mask : Lane) → halt_on result m mask ≡ going_on stored.b word m mask order turn stored }
{
    Halt {
        word,
        order,
        turn,
        stored,
    }
}

// From where the piece stands up to its next product or refresh, or past its last gate, with so much used before. Each
// gate writes its one slot in place.
fn walk_piece(host: &Worker<'_>, p: Piece, table: &[u32], used: Used, lanes: &mut Lanes) -> Stop
    requires { (p.end ≡ length (piece_gates 32 (rows table.now) p)) × (p.end ≤ 50)
        × (used.a < 2 ^ 61) × (used.deals < 2 ^ 61) }
    ensures { (j : ℕ) × Going 32 (worker host.now)
        (piece_gates 32 (rows table.now) p)
        p.from used.a used.deals (pair_of lanes.old)
        j result.used.a result.used.deals (pair_of lanes.new)
        × MatchOption result.gate
        (length (piece_gates 32 (rows table.now) p) ≤ j)
        (λ g. (read g ≡ fetched (piece_gates 32 (rows table.now) p) j) × Exchanging (step_of 32 g ∷ []))
        × (result.used.b ≡ used.b) }
{
    let mut at = used;
    for i in p.from..p.end {
        let gate = gate_at(p, table, i);
        if exchanges(gate) {
            return Stop {
                used: at,
                gate: Some(gate),
            };
        }
        host.step(gate, at, lanes);
        at = past(at, used_by(gate));
    }
    Stop {
        used: at,
        gate: None,
    }
}

// From a place of an accepted job, at a gate of its order, to the next product or refresh, or to the end, on the lanes
// in place: the halt there. The walk moves on by orders and by pieces of an order, so no count runs over it.
pub(crate) fn advance(
    host: &Worker<'_>,
    job: Job<'_>,
    place: Place,
    from: Reach,
    lanes: &mut Lanes,
) -> Halt
    requires { Accepted job × (from.gate ≤ 1000)
        × (from.used.a < 2 ^ 31) × (from.used.deals < 2 ^ 31) × (from.used.b < 2 ^ 31) }
    ensures { halt_on result lanes.new.first lanes.new.second
        ≡ reported (worker host.now)
        (steps_from 32 from.gate (drop place.order (job_gates 32 job.entry.orders.now job.entry.table.now)))
        (used_to place.order place.turn from.used) (pair_of lanes.old) }
{
    let n = job.orders.len() / 4;
    let mut order = place.order as usize;
    let mut turn = place.turn;
    let mut at = from;
    while order < n {
        let o = order_at(job.orders, order);
        if adds_here(o, at.gate) {
            add_in_place(o, lanes);
            order += 1;
            turn = 0;
            continue;
        }
        let p = piece_at(o, job.table, at.gate);
        let stop = walk_piece(host, p, job.table, at.used, lanes);
        at.used = stop.used;
        if let Some(g) = stop.gate {
            let word = host.say(g, at.used, lanes);
            let stored = at.places_with(used_by(g));
            return halted(word, order as u32, turn, stored);
        }
        if p.last {
            order += 1;
            turn = 0;
            at.gate = 0;
        } else {
            at.gate += p.end - p.from;
        }
    }
    halted(0, order as u32, turn, at.places())
}
