// What a register opens, where the three hosts stand in one place; the plant room is sent its six words alone.
#![tactic(auto)]

ghost use Rattle.std.specs.Prelude.{◌≡◌};
ghost use Rattle.gates.specs.Steps.{at};
ghost use Rattle.shares.specs.Answers.{opening};
ghost use Rattle.runs.specs.Runs.{opened_slot};

use dealer::Masks;
use shares::{DealerShare, Disagree, Shares, WorkerShare, reconstruct};
use word_lists::word_at;
use worker::State;

// What host 1 or 2 holds of a register.
fn held(s: State, register: usize) -> WorkerShare
    ensures { (result.m ≡ at s.m register) × (result.l ≡ at s.mask register) }
{
    let m = s.m;
    let mask = s.mask;
    WorkerShare {
        m: word_at(&m, register),
        l: word_at(&mask, register),
    }
}

// What a register, 0 to 15, opens: host 0 gives its masks, hosts 1 and 2 their states.
pub fn opened(masks: Masks, one: State, two: State, register: usize) -> Result<i64, Disagree>
    ensures { opening result
        ≡ opened_slot 32 (masks.l1, masks.l2) (one.m, one.mask) (two.m, two.mask) register }
{
    let l1 = masks.l1;
    let l2 = masks.l2;
    reconstruct(Shares {
        p0: DealerShare {
            l1: word_at(&l1, register),
            l2: word_at(&l2, register),
        },
        p1: held(one, register),
        p2: held(two, register),
    })
}
