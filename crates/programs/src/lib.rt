// The gate program of each kind of order, what it opens and what it costs: definitions and laws, and the sizes by
// number.
#![tactic(auto)]

mod kind;

pub use kind::{Kind, UnknownKind};

// An order's four words (document 01: kind, target, first source, fourth word): numbers, since a job is lent and
// `piece_at`, `seek` and `order_fault` answer on every one. Where the code tells kinds apart,
// it names them by `Kind`.
#[derive(Clone, Copy)]
pub struct Order {
    pub kind: u32,
    pub target: u32,
    pub source: u32,
    pub fourth: u32,
}

// The place of a gate in its program: its index, and the words of A and the deals that the program uses before it. No
// invariant bounds them, or `sought` would carry a proof in every place.
#[derive(Clone, Copy, Debug, PartialEq, Eq)]
pub struct GatePlace {
    pub gate: usize,
    pub a: usize,
    pub deals: usize,
}

pub const START: GatePlace = GatePlace {
    gate: 0,
    a: 0,
    deals: 0,
};

// The size of a block: its gates, the products and refreshes among them, and the words of A and the deals that they
// use. Each exchange uses a word of B.
#[derive(Clone, Copy, Debug, PartialEq, Eq)]
pub struct BlockSize {
    pub gates: usize,
    pub exchanges: usize,
    pub a: usize,
    pub deals: usize,
}

// The temporaries by the letters of document 01: n, P and G of the adder, a shifted word s and a product t, the source
// y of a block, the sum of a curve, and a result. Where a curve ends, t holds R-1's a and the sum's slot the truncated
// value.
pub const N_SLOT: u32 = 16;

pub const P_SLOT: u32 = 17;

pub const G_SLOT: u32 = 18;

pub const S_SLOT: u32 = 19;

pub const T_SLOT: u32 = 20;

pub const Y_SLOT: u32 = 21;

pub const ACC_SLOT: u32 = 22;

pub const RES_SLOT: u32 = 23;

// The bits of a word, and the adder's rounds: its distance doubles from 1 to half a word.
pub const WIDTH: u32 = 32;

pub const ROUNDS: usize = 5;

// The sizes of the blocks and of the programs that they make; those of the adder and of each program are computed from
// the definitions in programs/proofs/Sizes.antt. A deal uses a word of A, a product a deal and two words of A, one with
// a known value (R-4) one word of A and no deal.
pub const DEAL: BlockSize = BlockSize {
    gates: 1,
    exchanges: 0,
    a: 1,
    deals: 1,
};

pub const PRODUCT: BlockSize = BlockSize {
    gates: 1,
    exchanges: 1,
    a: 2,
    deals: 1,
};

pub const REFRESH: BlockSize = BlockSize {
    gates: 1,
    exchanges: 1,
    a: 1,
    deals: 0,
};

// The adder: five gates, a deal and the first of its products among them, which is with a known value, and then each
// round's five gates with two products, of which the last round has the first three gates alone.
pub const ADDER_HEAD: usize = 5;

pub const ROUND_GATES: usize = 5;

pub const ADDER_GATES: usize = ADDER_HEAD + ROUND_GATES * ROUNDS - 2;

// all but the first
pub const ADDER_DEALT_PRODUCTS: usize = 2 * ROUNDS - 1;

pub const ADDER: BlockSize = BlockSize {
    gates: ADDER_GATES,
    exchanges: 2 * ROUNDS,
    a: 2 + PRODUCT.a * ADDER_DEALT_PRODUCTS,
    deals: DEAL.deals + PRODUCT.deals * ADDER_DEALT_PRODUCTS,
};

// A bit made a number: one deal and one product with a known value.
pub const NUMBER: BlockSize = BlockSize {
    gates: 6,
    exchanges: 1,
    a: 2,
    deals: 1,
};

// The sign of a slot, by where its gates stand: the adder, and two for the sign bit, which becomes a number.
pub const SIGN_BIT: usize = ADDER_GATES;

pub const SIGN_XOR: usize = SIGN_BIT + 1;

pub const SIGN_NUMBER: usize = SIGN_XOR + 1;

pub const SIGN_GATES: usize = SIGN_NUMBER + NUMBER.gates;

pub const SIGN: BlockSize = BlockSize {
    gates: SIGN_GATES,
    exchanges: ADDER.exchanges + NUMBER.exchanges,
    a: ADDER.a + NUMBER.a,
    deals: ADDER.deals + NUMBER.deals,
};

// The ReLU: the sign, and three gates behind it, with a product.
pub const RELU_ONE: usize = SIGN_GATES;

pub const RELU_SUB: usize = RELU_ONE + 1;

pub const RELU_LAST: usize = RELU_SUB + 1;

pub const RELU_GATES: usize = RELU_LAST + 1;

pub const RELU: BlockSize = BlockSize {
    gates: RELU_GATES,
    exchanges: SIGN.exchanges + PRODUCT.exchanges,
    a: SIGN.a + PRODUCT.a,
    deals: SIGN.deals + PRODUCT.deals,
};

// A curve's row: its ReLU between one gate and two.
pub const ROW_HEAD: usize = 1;

pub const ROW_TAIL: usize = 2;

pub const ROW_GATES: usize = ROW_HEAD + RELU_GATES + ROW_TAIL;

pub const ROW: BlockSize = BlockSize {
    gates: ROW_GATES,
    ..RELU
};

// The exact truncation, by where its gates stand: four with a deal, the adder, the low bit of G, which becomes a number
// and is added to the sum, the top bit of G, which becomes a number, is scaled and subtracted, and the last one.
pub const EXACT_HEAD: usize = 4;

pub const EXACT_LOW: usize = EXACT_HEAD + ADDER_GATES;

pub const EXACT_LOW_NUMBER: usize = EXACT_LOW + 1;

pub const EXACT_SUM: usize = EXACT_LOW_NUMBER + NUMBER.gates;

pub const EXACT_TOP: usize = EXACT_SUM + 1;

pub const EXACT_TOP_NUMBER: usize = EXACT_TOP + 1;

pub const EXACT_SCALE: usize = EXACT_TOP_NUMBER + NUMBER.gates;

pub const EXACT_SUB: usize = EXACT_SCALE + 1;

pub const EXACT_LAST: usize = EXACT_SUB + 1;

pub const EXACT_GATES: usize = EXACT_LAST + 1;

pub const EXACT: BlockSize = BlockSize {
    gates: EXACT_GATES,
    exchanges: ADDER.exchanges + 2 * NUMBER.exchanges,
    a: DEAL.a + ADDER.a + 2 * NUMBER.a,
    deals: DEAL.deals + ADDER.deals + 2 * NUMBER.deals,
};

// The one-bit truncation: two deals and a product with a known value.
pub const ONE_BIT_GATES: usize = 13;

pub const ONE_BIT: BlockSize = BlockSize {
    gates: ONE_BIT_GATES,
    exchanges: 1,
    a: 3,
    deals: 2,
};

// The same behind a refresh.
pub const REFRESHED: BlockSize = BlockSize {
    gates: REFRESH.gates + ONE_BIT.gates,
    exchanges: REFRESH.exchanges + ONE_BIT.exchanges,
    a: REFRESH.a + ONE_BIT.a,
    deals: REFRESH.deals + ONE_BIT.deals,
};

// Large slack: a deal, a known word, and their sum.
pub const SLACK_GATES: usize = 3;

pub const SLACK: BlockSize = BlockSize {
    gates: SLACK_GATES,
    ..DEAL
};

// R-1's last steps of a curve, by where their gates stand: two for the last row's count less x, the sign of that, and
// three behind it, with a product. They count what a row counts.
pub const SATURATION_HEAD: usize = 2;

pub const SATURATION_PLUS: usize = SATURATION_HEAD + SIGN_GATES;

pub const SATURATION_PRODUCT: usize = SATURATION_PLUS + 1;

pub const SATURATION_LAST: usize = SATURATION_PRODUCT + 1;

pub const SATURATION_GATES: usize = SATURATION_LAST + 1;

pub const SATURATION: BlockSize = BlockSize {
    gates: SATURATION_GATES,
    ..ROW
};
