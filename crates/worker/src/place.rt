// A state's place in an order, as a hearing finds it: the gate there, what is used before it, and the walk's places,
// which its stored places are compared with (R-7).
ghost use Rattle.std.specs.Prelude.{◌≡◌, ◌&&◌, cond, ◌+◌, ◌^◌, ◌<◌, eqb};
ghost use Rattle.tables.specs.Table.{rows};
ghost use Rattle.calls.specs.Calls.{stored_places, same_places};
ghost use Rattle.jobs.specs.Refusals.{number_of};
ghost use Rattle.worker.specs.Jobs.{StandIs};

use crate::walk::Reach;
use calls::Stored;
use gate_shape::used_by;
use gates::{GateCode, Used};
use jobs::{Condition, Counts};
use program_fetch::{gate_at, piece_at};
use programs::{GatePlace, Order};

// The product or refresh where a state stands, and the walk's places there.
#[derive(Clone, Copy)]
pub(crate) struct Stand {
    pub gate: GateCode,
    pub at: Reach,
    pub walked: Stored,
}

// By what the orders before use, and what the order uses before its gate.
pub(crate) fn stand_at(o: Order, table: &[u32], used: Counts, turn: u32, place: GatePlace) -> Stand
    requires { (used.a + place.a < 2 ^ 30) × (used.b + turn < 2 ^ 30)
        × (used.deals + place.deals < 2 ^ 30) }
    ensures { StandIs 32 (rows table.now) o place.gate (used.a + place.a) (used.b + turn)
        (used.deals + place.deals) result }
{
    let p = piece_at(o, table, place.gate);
    let g = gate_at(p, table, p.from);
    let at = Reach {
        gate: place.gate,
        used: Used {
            a: used.a as usize + place.a,
            b: used.b as usize + turn as usize,
            deals: used.deals as usize + place.deals,
        },
    };
    Stand {
        gate: g,
        at,
        walked: at.places_with(used_by(g)),
    }
}

// Conditions 8, 18 and 9 past the last order, where `whole` has the counts of all orders: the end is the number of
// orders and 0.
pub(crate) fn end_fault(
    order: usize,
    n: usize,
    turn: u32,
    whole: Counts,
    stored: Stored,
) -> Condition
    ensures { number_of result
        ≡ cond (eqb order n && eqb turn 0)
        (cond (same_places stored (stored_places whole.a whole.b whole.deals)) 9 18) 8 }
{
    if order != n {
        return Condition::NoPlace;
    }
    if turn != 0 {
        return Condition::NoPlace;
    }
    let all = Stored {
        a: whole.a,
        b: whole.b,
        deals: whole.deals,
    };
    if stored == all {
        return Condition::AtEnd;
    }
    Condition::OtherPlaces
}
