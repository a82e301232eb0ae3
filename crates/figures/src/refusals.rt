// The calls that turn a case down (document 01, "Turned down"). A refused call is to give back what it was given and
// write nothing; that every other number in its answer is 0 is said by its type, which has none. The number and the
// index that are due are document 01's, written out; the engine's condition is asked for its number.
use crate::draw::drawn;
use crate::trials::front;
use calls::Stored;
use dealer::{Masks, prepare};
use job_leftover::{leftover, unused};
use jobs::{Refusal, Which};
use worker::{Answer, Registers, State, start};

// A call that checks a job: starting or hearing of a host, unused masks, preparation, and checking alone.
#[derive(Clone, Copy)]
pub(crate) enum Call {
    Starting(u32),
    Hearing(u32),
    Unused(Which),
    Preparation,
    Checking,
}

impl Call {
    pub(crate) const ALL: [Call; 8] = [
        Call::Starting(1),
        Call::Starting(2),
        Call::Hearing(1),
        Call::Hearing(2),
        Call::Unused(Which::ListA),
        Call::Unused(Which::ListB),
        Call::Preparation,
        Call::Checking,
    ];

    // The two hosts' hearings.
    pub(crate) const HEARINGS: [Call; 2] = [Call::Hearing(1), Call::Hearing(2)];
}

// A call, and what it is to answer: the number and the order's index.
#[derive(Clone, Copy)]
pub(crate) struct Case {
    pub(crate) call: Call,
    pub(crate) order: u32,
    pub(crate) turn: u32,
    pub(crate) stored: Stored,
    // words lent: masks (at a preparation of A), masks of B, and deals
    pub(crate) masks: usize,
    pub(crate) masks_b: usize,
    pub(crate) deals: usize,
    pub(crate) number: u32,
    pub(crate) index: u32,
}

// A lane with no kept words.
fn lane(registers: [u32; 16]) -> [u32; 24] {
    let mut lane = [0; 24];
    lane[..16].copy_from_slice(&registers);
    lane
}

impl Case {
    // With all that the call needs, and index 0. Host 1 hears at the first place, host 2 at one that no job here has.
    pub(crate) fn new(call: Call, number: u32) -> Self {
        let (order, turn) = match call {
            Call::Hearing(2) => (7, 9),
            _ => (0, 0),
        };
        Case {
            call,
            order,
            turn,
            stored: Stored {
                a: 0,
                b: 0,
                deals: 0,
            },
            masks: 512,
            masks_b: 512,
            deals: 512,
            number,
            index: 0,
        }
    }

    fn state(&self, m: [u32; 24], mask: [u32; 24]) -> State {
        State {
            m,
            mask,
            order: self.order,
            turn: self.turn,
            stored: self.stored,
        }
    }

    fn is_due(&self, refusal: Refusal) -> bool {
        refusal.condition.number() == self.number && refusal.index == self.index
    }

    // A host is to give back its state too.
    fn is_host_due(&self, answer: Result<Answer, worker::Refused>, given: State) -> bool {
        answer.is_err_and(|refused| self.is_due(refused.refusal) && refused.state == given)
    }

    fn starting(&self, host: u32, job: &[u32], table: &[u32]) -> bool {
        let lent = drawn::<512>(81);
        let m = drawn(73);
        let mask = drawn(74);
        let masks = front(&lent, self.masks);
        let deals = front(&lent, self.deals);
        let given = self.state(lane(m), lane(mask));
        let answer = start(host, job, table, masks, deals, Registers { m, mask });
        self.is_host_due(answer, given)
    }

    // From a state with drawn registers and kept words.
    fn hearing(&self, host: u32, job: &[u32], table: &[u32]) -> bool {
        let lent = drawn::<512>(81);
        let given = self.state(drawn(73), drawn(74));
        let masks = front(&lent, self.masks);
        let deals = front(&lent, self.deals);
        let answer = given.hear(host, job, table, masks, deals, 123456789);
        self.is_host_due(answer, given)
    }

    // The masks and the whole buffer are to stay as before.
    fn preparation(&self, job: &[u32], table: &[u32]) -> bool {
        let lent = drawn::<512>(81);
        let before = drawn::<512>(77);
        let mut buffer = before;
        let masks = Masks {
            l1: drawn(75),
            l2: drawn(76),
        };
        let a = front(&lent, self.masks);
        let b = front(&lent, self.masks_b);
        let deals = &mut buffer[..self.deals.min(512)];
        let Err(refused) = prepare(job, table, a, b, deals, masks) else {
            return false;
        };
        self.is_due(refused.refusal) && refused.masks == masks && buffer == before
    }

    // Only the number, and, where the call lends a word for it, the whole list.
    fn unused_masks(&self, which: Which, job: &[u32], table: &[u32]) -> bool {
        let lent = drawn::<512>(81);
        let masks = front(&lent, self.masks);
        let mut said = 99;
        let rest = leftover(job, table, which, masks, &mut said);
        let numbered = said == self.number && rest == masks;
        numbered && unused(job, table, which, masks).is_err_and(|c| c.number() == self.number)
    }

    fn checking(&self, job: &[u32], table: &[u32]) -> bool {
        job_check::check(job, table).is_err_and(|refusal| self.is_due(refusal))
    }

    // Whether the call, on this job and table, answers anything else than is due.
    pub(crate) fn is_wrong(&self, job: &[u32], table: &[u32]) -> bool {
        !match self.call {
            Call::Starting(host) => self.starting(host, job, table),
            Call::Hearing(host) => self.hearing(host, job, table),
            Call::Unused(which) => self.unused_masks(which, job, table),
            Call::Preparation => self.preparation(job, table),
            Call::Checking => self.checking(job, table),
        }
    }
}
