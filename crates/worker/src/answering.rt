// The answers of starting and hearing.
ghost use Rattle.std.specs.Prelude.{◌≡◌, Ok, Err};
ghost use Rattle.jobs.specs.Refusals.{number_of};
ghost use Rattle.calls.specs.Calls as Calls;
ghost use Rattle.worker.specs.Answers.{answer_of, state_of, state_with, halt_on};

use crate::walk::Halt;
use crate::{Answer, Refused, State};
use calls::Stored;
use jobs::Condition;

// Before the first order, with nothing used.
pub(crate) fn first_state(m: [u32; 24], mask: [u32; 24]) -> State
    ensures { state_of result ≡ state_with m mask 0 0 (Calls.stored_places 0 0 0) }
{
    State {
        m,
        mask,
        order: 0,
        turn: 0,
        stored: Stored {
            a: 0,
            b: 0,
            deals: 0,
        },
    }
}

// A condition that no order meets.
pub(crate) fn refused(condition: Condition, state: State) -> Refused
    ensures { answer_of (Err result) ≡ Calls.refused (number_of condition, 0) (state_of state) }
{
    Refused {
        refusal: condition.into(),
        state,
    }
}

// Where a walk halted, on these lanes: the words spoken so far are as many as words of B used.
pub(crate) fn answered(h: Halt, m: [u32; 24], mask: [u32; 24]) -> Answer
    ensures { answer_of (Ok result) ≡ halt_on h m mask }
{
    let stored = h.stored;
    Answer {
        spoken: stored.b,
        word: h.word,
        state: State {
            m,
            mask,
            order: h.order,
            turn: h.turn,
            stored,
        },
    }
}
