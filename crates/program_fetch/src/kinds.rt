// Kinds 0 to 9: the gate at an index of an order's program, from the blocks.
ghost use Rattle.std.specs.Prelude.{◌≡◌, ◌-◌, ◌%◌, ◌^◌, ◌<◌, ◌≤◌, []};
ghost use Rattle.gates.specs.Codes.{fetched, read};
ghost use Rattle.programs.specs.Programs.{relu_program, slack_program, one_bit_program, exact_program};
ghost use Rattle.programs.specs.Orders.{program};

use crate::blocks::{adder_gate, number_gate, sign_gate};
use crate::codes::{on_slots, past, with_constant, with_part};
use gates::{GateCode, Op};
use programs::{
    EXACT_HEAD, EXACT_LAST, EXACT_LOW, EXACT_LOW_NUMBER, EXACT_SCALE, EXACT_SUB, EXACT_SUM,
    EXACT_TOP, EXACT_TOP_NUMBER, G_SLOT, Kind, N_SLOT, Order, P_SLOT, RELU_LAST, RELU_ONE,
    RELU_SUB, RES_SLOT, S_SLOT, T_SLOT, WIDTH, Y_SLOT,
};
use words::rings::{Arithmetic, Numbers};

// ---- the constants, which depend on the shift k

// 2^(top - k), and 1 from k = top on.
fn power(top: u32, k: u32) -> u32
    requires { top ≤ 31 }
    ensures { result ≡ 2 ^ (top - k) }
{
    1u32 << top.saturating_sub(k)
}

// 2^(32 - k) as a word: 0 for k = 0, which is no shift of a valid order.
fn full_power(k: u32) -> u32
    ensures { result ≡ 2 ^ (32 - k) % 2 ^ 32 }
{
    match k {
        0 => 0,
        _ => power(WIDTH - 1, k - 1),
    }
}

// ---- the programs

const ADD: u32 = Kind::Add as u32;

const SUBTRACT: u32 = Kind::Subtract as u32;

const ADD_CONSTANT: u32 = Kind::AddConstant as u32;

const TIMES_CONSTANT: u32 = Kind::TimesConstant as u32;

const PRODUCT: u32 = Kind::Product as u32;

// Kinds 0 to 5: a program of one gate. The last of them is the refresh.
pub(crate) fn one_gate(o: Order, i: usize) -> GateCode
    requires { o.kind < 6 }
    ensures { read result ≡ fetched (program 32 [] o) i }
{
    if 0 < i {
        return past();
    }
    let kind = o.kind;
    let d = o.target;
    let a = o.source;
    let c = o.fourth;
    match kind {
        ADD => on_slots(Op::Add, d, a, c),
        SUBTRACT => on_slots(Op::Sub, d, a, c),
        ADD_CONSTANT => with_constant(Op::Plus, d, a, c),
        TIMES_CONSTANT => with_constant(Op::Scale, d, a, c),
        PRODUCT => on_slots(Op::Mul, d, a, c),
        _ => on_slots(Op::Refresh, d, a, 0),
    }
}

// floor(-L / 2^k) dealt, floor(m / 2^k) known, and their sum.
pub(crate) fn slack_gate(k: u32, x: u32, d: u32, i: usize) -> GateCode
    ensures { read result ≡ fetched (slack_program k x d) i }
{
    match i {
        0 => with_constant(Op::DealSigned, N_SLOT, x, k),
        1 => with_constant(Op::PublicSigned, P_SLOT, x, k),
        2 => on_slots(Op::Add, d, N_SLOT, P_SLOT),
        _ => past(),
    }
}

// c' - r' + b × 2^(31-k) - 2^(30-k). Of x + 2^30: r' and the top bit of L are dealt, c' and the top bit of m are
// known; b is made of the two top bits by one product.
pub(crate) fn one_bit_gate(k: u32, x: u32, d: u32, i: usize) -> GateCode
    ensures { read result ≡ fetched (one_bit_program 32 k x d) i }
{
    match i {
        0 => with_constant(Op::Plus, Y_SLOT, x, power(WIDTH - 2, 0)),
        1 => with_part(
            Op::DealSum,
            N_SLOT,
            Y_SLOT,
            k,
            (WIDTH - 1).saturating_sub(k),
        ),
        2 => with_part(Op::DealSum, P_SLOT, Y_SLOT, WIDTH - 1, 1),
        3 => with_part(Op::Public, G_SLOT, Y_SLOT, k, (WIDTH - 1).saturating_sub(k)),
        4 => with_part(Op::Public, S_SLOT, Y_SLOT, WIDTH - 1, 1),
        5 => on_slots(Op::MulKnown, T_SLOT, S_SLOT, P_SLOT),
        6 => with_constant(Op::Scale, T_SLOT, T_SLOT, 2),
        7 => on_slots(Op::Add, P_SLOT, S_SLOT, P_SLOT),
        8 => on_slots(Op::Sub, P_SLOT, P_SLOT, T_SLOT),
        9 => with_constant(Op::Scale, P_SLOT, P_SLOT, power(WIDTH - 1, k)),
        10 => on_slots(Op::Sub, G_SLOT, G_SLOT, N_SLOT),
        11 => on_slots(Op::Add, G_SLOT, G_SLOT, P_SLOT),
        12 => with_constant(Op::Plus, d, G_SLOT, Numbers::negative(power(WIDTH - 2, k))),
        _ => past(),
    }
}

// sum + b1 - b2 × 2^(32-k) - 2^(31-k). Of x + 2^31: the sum is what is dealt of -L and known of m; b1 and b2 are the
// carries out of the low k bits and out of the word.
pub(crate) fn exact_gate(k: u32, x: u32, d: u32, i: usize) -> GateCode
    ensures { read result ≡ fetched (exact_program 32 k x d) i }
{
    match i {
        0 => with_constant(Op::Plus, Y_SLOT, x, power(WIDTH - 1, 0)),
        1 => with_part(Op::DealNegated, RES_SLOT, Y_SLOT, k, WIDTH),
        2 => with_part(Op::Public, T_SLOT, Y_SLOT, k, WIDTH),
        3 => on_slots(Op::Add, RES_SLOT, RES_SLOT, T_SLOT),
        EXACT_HEAD..EXACT_LOW => adder_gate(Y_SLOT, i - EXACT_HEAD),
        EXACT_LOW => with_constant(Op::Bit, T_SLOT, G_SLOT, k.saturating_sub(1)),
        EXACT_LOW_NUMBER..EXACT_SUM => number_gate(i - EXACT_LOW_NUMBER),
        EXACT_SUM => on_slots(Op::Add, RES_SLOT, RES_SLOT, T_SLOT),
        EXACT_TOP => with_constant(Op::Bit, T_SLOT, G_SLOT, WIDTH - 1),
        EXACT_TOP_NUMBER..EXACT_SCALE => number_gate(i - EXACT_TOP_NUMBER),
        EXACT_SCALE => with_constant(Op::Scale, T_SLOT, T_SLOT, full_power(k)),
        EXACT_SUB => on_slots(Op::Sub, RES_SLOT, RES_SLOT, T_SLOT),
        EXACT_LAST => with_constant(
            Op::Plus,
            d,
            RES_SLOT,
            Numbers::negative(power(WIDTH - 1, k)),
        ),
        _ => past(),
    }
}

// The sign s to a number, then the product of x with 1 - s.
pub(crate) fn relu_gate(x: u32, d: u32, i: usize) -> GateCode
    ensures { read result ≡ fetched (relu_program 32 x d) i }
{
    if i < RELU_ONE {
        return sign_gate(x, i);
    }
    match i {
        RELU_ONE => with_constant(Op::Const, S_SLOT, 0, 1),
        RELU_SUB => on_slots(Op::Sub, S_SLOT, S_SLOT, T_SLOT),
        RELU_LAST => on_slots(Op::Mul, d, x, S_SLOT),
        _ => past(),
    }
}
