// One call of the engine on lists as long as any job needs: a turn of each workload but the days.
use calls::Stored;
use dealer::{Masks, prepare};
use sample_masks::fill;
use tables::HOUSE;
use trio::{Shared, run};
use words::wrapping_mul;
use worker::{Refused, Registers, State, start};

// The mask lists A and B and the deals.
#[derive(Drop)]
pub(crate) struct Lists {
    pub(crate) a: [u32; 27712],
    pub(crate) b: [u32; 13824],
    pub(crate) deals: [u32; 13888],
}

// A job for probing.
const PROBED: [[u32; 4]; 8] = [
    [10, 1, 0, 1],
    [4, 2, 0, 1],
    [0, 3, 1, 2],
    [8, 4, 2, 5],
    [5, 1, 2, 0],
    [7, 1, 2, 3],
    [9, 1, 1, 0],
    [6, 2, 2, 4],
];

// How far B and the deals are used at the first turn of an order.
struct Used {
    b: u32,
    deals: u32,
}

// Of each order of that job, of its end, and of a place past it.
const PROBED_USED: [Used; 10] = [
    Used { b: 1, deals: 1 },
    Used { b: 111, deals: 111 },
    Used { b: 112, deals: 111 },
    Used { b: 112, deals: 113 },
    Used { b: 124, deals: 124 },
    Used { b: 125, deals: 126 },
    Used { b: 126, deals: 127 },
    Used { b: 138, deals: 138 },
    Used { b: 137, deals: 139 },
    Used { b: 137, deals: 139 },
];

// Register 0, and zeros behind it.
fn lane(word: u32) -> [u32; 16] {
    let mut l = [0; 16];
    l[0] = word;
    l
}

// The stored places at a place of that job; wrong ones at the refresh of its curve, and elsewhere now and then one of
// the three.
fn probed(order: u32, turn: u32, x: u32) -> Stored {
    let used = &PROBED_USED[(order % 10) as usize];
    let b = used.b.wrapping_add(turn);
    let deals = used.deals.wrapping_add(turn);
    let off = x / 7 % 16;
    Stored {
        a: b.wrapping_add(deals).wrapping_add(u32::from(off == 0)),
        b: b.wrapping_add(u32::from(off == 1)),
        deals: deals.wrapping_add(u32::from(off == 2)),
    }
}

// The first n words, or all where there are fewer (a line of `figures` too: the programs share no crate of their own).
fn front(list: &[u32], n: u32) -> &[u32] {
    list.get(..n as usize).unwrap_or(list)
}

fn starting(host: u32, job: &[u32], list: &[u32], deals: &[u32], x: u32) -> u32 {
    let m = lane(x.wrapping_add(202));
    let mask = lane(x);
    let (said, state) = match start(host, job, &HOUSE, list, deals, Registers { m, mask }) {
        Ok(answer) => (answer.word.wrapping_add(answer.spoken), answer.state),
        Err(refused) => (0, refused.state),
    };
    said.wrapping_add(state.m[0]).wrapping_add(state.mask[1])
}

impl Lists {
    pub(crate) fn filled() -> Self {
        let mut lists = Lists {
            a: [0; 27712],
            b: [0; 13824],
            deals: [0; 13888],
        };
        fill(&mut lists.a, 2654435769, 1);
        fill(&mut lists.b, 2246822519, 1);
        lists
    }

    pub(crate) fn preparing(&mut self, job: &[u32], x: u32) -> u32 {
        let l1 = lane(x);
        let l2 = lane(x.wrapping_add(7));
        let prepared = prepare(
            job,
            &HOUSE,
            &self.a,
            &self.b,
            &mut self.deals,
            Masks { l1, l2 },
        );
        let (deals, left) = match prepared {
            Ok(prepared) => (prepared.deals, prepared.masks),
            Err(refused) => (0, refused.masks),
        };
        deals.wrapping_add(left.l1[0]).wrapping_add(left.l2[0])
    }

    pub(crate) fn starting_one(&self, job: &[u32], x: u32) -> u32 {
        starting(1, job, &self.a, &[], x)
    }

    pub(crate) fn starting_two(&self, job: &[u32], x: u32) -> u32 {
        starting(2, job, &self.b, &self.deals, x)
    }

    pub(crate) fn running(&mut self, job: &[u32], x: u32) -> u32 {
        let m = lane(x.wrapping_add(x).wrapping_add(209));
        let l1 = lane(x);
        let l2 = lane(x.wrapping_add(7));
        let ran = run(
            job,
            &HOUSE,
            &self.a,
            &self.b,
            &mut self.deals,
            Shared { m, l1, l2 },
        );
        let (state, said, left) = match ran {
            Ok(ran) => (
                ran.one.state,
                ran.two.spoken.wrapping_add(ran.deals),
                ran.masks,
            ),
            Err(refused) => (refused.one, 0, refused.masks),
        };
        state.m[0].wrapping_add(said).wrapping_add(left.l1[0])
    }

    // Hearing at places and with lists that a number names, refused or not.
    pub(crate) fn probing(&self, x: u32) -> u32 {
        let order = x / 4 % 10;
        let turn = x / 40 % 260;
        let s = State {
            m: [x; 24],
            mask: [7; 24],
            order,
            turn,
            stored: probed(order, turn, x),
        };
        let short = front(&self.a, x / 1000 % 330);
        let fewer = front(&self.deals, x / 1300 % 200);
        let (said, state) = match s.hear(x % 4, PROBED.as_flattened(), &HOUSE, short, fewer, 5) {
            Ok(answer) => (wrapping_mul(answer.spoken, 257), answer.state),
            Err(Refused { refusal, state }) => {
                let index = wrapping_mul(refusal.index, 1000);
                let fault = refusal.condition.number().wrapping_add(index);
                (wrapping_mul(fault, 65537), state)
            }
        };
        let place = wrapping_mul(state.order, 31).wrapping_add(state.turn);
        let left = state.stored;
        let used = left
            .a
            .wrapping_add(wrapping_mul(left.b, 3))
            .wrapping_add(wrapping_mul(left.deals, 5));
        said.wrapping_add(wrapping_mul(used, 8191))
            .wrapping_add(place)
    }
}
