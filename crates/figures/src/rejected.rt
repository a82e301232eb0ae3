// The cases of the numbers 1 to 9 and 18: which job and table, and which call. Each function says whether a case goes
// wrong.
use crate::refusals::{Call, Case};
use calls::Stored;
use jobs::Which;

// A job, and how far its lists are used at its end.
#[derive(Clone, Copy)]
struct Job {
    words: &'static [u32],
    used: Stored,
}

const RELU_USED: Stored = Stored {
    a: 24,
    b: 12,
    deals: 12,
};

// One kind 9: 12 products.
const RELU: Job = Job {
    words: &[9, 0, 1, 0],
    used: RELU_USED,
};

// Three orders of which only the second has a product, and only one.
const ONE_PRODUCT: Job = Job {
    words: &[0, 1, 2, 3, 4, 5, 6, 7, 6, 1, 1, 4],
    used: Stored {
        a: 3,
        b: 1,
        deals: 2,
    },
};

const BAD_ORDER: [u32; 4] = [11, 16, 0, 0];

// Number 1, a host that is none: starting and hearing, with a good job and with a bad one.
pub(crate) fn no_host(i: u32) -> bool {
    let i = i as usize;
    let host = [0, 3, u32::MAX][i / 2 % 3];
    let call = [Call::Starting(host), Call::Hearing(host)][i % 2];
    let job = [RELU.words, &BAD_ORDER][i / 6 % 2];
    Case::new(call, 1).is_wrong(job, &[])
}

const ILL_SIZED: [&[u32]; 7] = [
    &[],
    &[0; 1],
    &[0; 3],
    &[0; 6],
    &[0; 255],
    &[0; 257],
    &[0; 260],
];

// Number 2, in each of the eight calls.
pub(crate) fn ill_sized(i: u32) -> bool {
    let i = i as usize;
    Case::new(Call::ALL[i % 8], 2).is_wrong(ILL_SIZED[i / 8 % 7], &[])
}

// The orders of the numbers 3 (three), 4 (thirteen) and 5 (twelve).
const FAULTS: [[u32; 4]; 28] = [
    [11, 0, 0, 0],
    [4294967295, 0, 0, 0],
    [11, 16, 16, 16],
    [0, 16, 0, 0],
    [0, 0, 16, 0],
    [0, 0, 0, 16],
    [1, 0, 0, 16],
    [2, 16, 0, 16],
    [3, 0, 16, 16],
    [4, 0, 0, 16],
    [5, 16, 0, 1],
    [6, 0, 16, 0],
    [7, 4294967295, 0, 1],
    [8, 0, 4294967295, 32],
    [9, 16, 0, 1],
    [10, 0, 16, 2],
    [5, 0, 0, 1],
    [6, 0, 0, 0],
    [6, 0, 0, 32],
    [7, 0, 0, 0],
    [7, 0, 0, 31],
    [8, 0, 0, 0],
    [8, 0, 0, 32],
    [8, 0, 0, 4294967295],
    [9, 0, 0, 1],
    [10, 0, 0, 2],
    [10, 15, 15, 4294967295],
    [5, 15, 15, 16],
];

// An order alone, or, before another fault, as the second of three.
fn is_wrong_order(order: [u32; 4], case: Case) -> bool {
    match case.index {
        0 => case.is_wrong(&order, &tables::HOUSE),
        _ => case.is_wrong(
            [[8, 2, 3, 31], order, BAD_ORDER].as_flattened(),
            &tables::HOUSE,
        ),
    }
}

// Each order both ways in each of the eight calls.
pub(crate) fn faulty_order(number: u32, i: u32) -> bool {
    let order = FAULTS[i as usize / 16 % 28];
    let case = Case {
        index: i / 8 % 2,
        ..Case::new(Call::ALL[i as usize % 8], number)
    };
    is_wrong_order(order, case)
}

// Seventeen rows, fewer than two, an odd word, and six tables of two rows.
const BAD_TABLES: [&[u32]; 10] = [
    &[
        0, 7, 1, 7, 2, 7, 3, 7, 4, 7, 5, 7, 6, 7, 7, 7, 8, 7, 9, 7, 10, 7, 11, 7, 12, 7, 13, 7, 14,
        7, 15, 7, 16, 7,
    ],
    &[],
    &[0, 7],
    &[0, 7, 1, 7, 2],
    &[5, 1, 4, 2],
    &[5, 1, 5, 2],
    &[4096, 1, 4097, 2],
    &[5, 1, 4096, 2],
    &[5, 1, 6, 20001],
    &[5, 20001, 6, 2],
];

// Number 5: a curve order on such a table, alone and after an order that needs none, in each of the eight calls.
pub(crate) fn bad_table(i: u32) -> bool {
    let table = BAD_TABLES[i as usize / 16 % 10];
    let case = Case {
        index: i / 8 % 2,
        ..Case::new(Call::ALL[i as usize % 8], 5)
    };
    match case.index {
        0 => case.is_wrong(&[10, 1, 2, 0], table),
        _ => case.is_wrong(&[9, 2, 3, 0, 10, 1, 2, 1], table),
    }
}

// What a call on the kind 9 is lent: words of masks, of masks of B and of deals; and the order and turn of its place.
// The first eight are one word short of masks, the others of deals.
const SHORT: [(Call, [usize; 3], [u32; 2]); 12] = [
    (Call::Preparation, [23, 512, 512], [0, 0]),
    (Call::Preparation, [512, 11, 11], [0, 0]),
    (Call::Starting(1), [23, 0, 512], [0, 0]),
    (Call::Hearing(1), [23, 0, 512], [0, 3]),
    (Call::Starting(2), [11, 0, 11], [0, 0]),
    (Call::Hearing(2), [11, 0, 11], [0, 3]),
    (Call::Unused(Which::ListA), [23, 0, 0], [0, 0]),
    (Call::Unused(Which::ListB), [11, 0, 0], [0, 0]),
    (Call::Preparation, [512, 512, 11], [0, 0]),
    (Call::Starting(2), [512, 0, 11], [0, 0]),
    (Call::Hearing(2), [512, 0, 11], [0, 3]),
    (Call::Hearing(2), [512, 0, 11], [9, 9]),
];

// Eight cases of number 6, four of number 7.
pub(crate) fn short(number: u32, i: u32) -> bool {
    let (call, [masks, masks_b, deals], [order, turn]) = SHORT[i as usize % 12];
    let case = Case {
        masks,
        masks_b,
        deals,
        order,
        turn,
        ..Case::new(call, number)
    };
    case.is_wrong(RELU.words, &[])
}

// A job, an order and a turn: the places of number 8, then those of 9.
const PLACES: [(Job, u32, u32); 10] = [
    (RELU, 0, 12),
    (RELU, 0, 4294967295),
    (RELU, 1, 1),
    (RELU, 2, 0),
    (RELU, 4294967295, 0),
    (ONE_PRODUCT, 0, 0),
    (ONE_PRODUCT, 1, 1),
    (ONE_PRODUCT, 2, 0),
    (RELU, 1, 0),
    (ONE_PRODUCT, 3, 0),
];

// No product or refresh of an order, past the end, and at the end, with what the two jobs use in all: both hosts hear
// there.
pub(crate) fn at_place(number: u32, i: u32) -> bool {
    let (job, order, turn) = PLACES[i as usize / 2 % 10];
    let case = Case {
        order,
        turn,
        stored: job.used,
        ..Case::new(Call::HEARINGS[i as usize % 2], number)
    };
    case.is_wrong(job.words, &[])
}

// A place of the kind 9 and its stored places: the fourth product, and the end.
const WALKED: [(u32, u32, Stored); 2] = [
    (
        0,
        3,
        Stored {
            a: 8,
            b: 4,
            deals: 4,
        },
    ),
    (1, 0, RELU_USED),
];

// Number 18: one of the three stored places one more or fewer than the walk's: both hosts hear there.
pub(crate) fn unequal(i: u32) -> bool {
    let (order, turn, mut stored) = WALKED[i as usize / 2 % 2];
    let off = [1, u32::MAX][i as usize / 4 % 2];
    match i / 8 {
        0 => stored.a = stored.a.wrapping_add(off),
        1 => stored.b = stored.b.wrapping_add(off),
        _ => stored.deals = stored.deals.wrapping_add(off),
    }
    let case = Case {
        order,
        turn,
        stored,
        ..Case::new(Call::HEARINGS[i as usize % 2], 18)
    };
    case.is_wrong(RELU.words, &[])
}
