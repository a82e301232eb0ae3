// The blocks of programs: the adder, by its rounds, a bit made a number, and the sign.
ghost use Rattle.std.specs.Prelude.{◌≡◌};
ghost use Rattle.gates.specs.Codes.{fetched, read};
ghost use Rattle.programs.specs.Programs.{adder, rounds, sign_program, to_number};
ghost use Rattle.truncations.specs.Adder.{distances, updates};

use crate::codes::{on_slots, past, with_constant, with_part};
use gates::{GateCode, Op};
use programs::{
    ADDER_GATES, ADDER_HEAD, G_SLOT, N_SLOT, P_SLOT, ROUND_GATES, S_SLOT, SIGN_BIT, SIGN_NUMBER,
    SIGN_XOR, T_SLOT, WIDTH,
};

// G becomes G xor (P and (G shifted up)), and then, but for the last round, P becomes P and (P shifted up). The
// distance doubles from round to round.
fn round_gate(i: usize) -> GateCode
    ensures { read result ≡ fetched (rounds (updates (distances 32))) i }
{
    if ADDER_GATES - ADDER_HEAD <= i {
        return past();
    }
    let distance = 1u32 << (i / ROUND_GATES) as u32;
    match i % ROUND_GATES {
        0 => with_constant(Op::Up, S_SLOT, G_SLOT, distance),
        1 => on_slots(Op::And, T_SLOT, P_SLOT, S_SLOT),
        2 => on_slots(Op::Xor, G_SLOT, G_SLOT, T_SLOT),
        3 => with_constant(Op::Up, S_SLOT, P_SLOT, distance),
        _ => on_slots(Op::And, P_SLOT, P_SLOT, S_SLOT),
    }
}

// The adder deals n as bits, takes m as known bits, G = m and n, P = m xor n, of which the top bit is kept for the
// sign; then its rounds.
pub(crate) fn adder_gate(x: u32, i: usize) -> GateCode
    ensures { read result ≡ fetched (adder 32 x) i }
{
    match i {
        0 => on_slots(Op::DealBits, N_SLOT, x, 0),
        1 => with_part(Op::Public, P_SLOT, x, 0, WIDTH),
        2 => on_slots(Op::AndKnown, G_SLOT, P_SLOT, N_SLOT),
        3 => on_slots(Op::Xor, P_SLOT, P_SLOT, N_SLOT),
        4 => with_constant(Op::Bit, N_SLOT, P_SLOT, WIDTH - 1),
        _ => round_gate(i - ADDER_HEAD),
    }
}

// The bit in slot t: deal Lq, known mq, one product, mq + Lq - 2 × mq × Lq.
pub(crate) fn number_gate(i: usize) -> GateCode
    ensures { read result ≡ fetched (to_number 32) i }
{
    match i {
        0 => on_slots(Op::DealXor, S_SLOT, T_SLOT, 0),
        1 => with_part(Op::Public, P_SLOT, T_SLOT, 0, WIDTH),
        2 => on_slots(Op::MulKnown, T_SLOT, P_SLOT, S_SLOT),
        3 => with_constant(Op::Scale, T_SLOT, T_SLOT, 2),
        4 => on_slots(Op::Add, P_SLOT, P_SLOT, S_SLOT),
        5 => on_slots(Op::Sub, T_SLOT, P_SLOT, T_SLOT),
        _ => past(),
    }
}

// The sign of slot x made a number: bit 31 of (m xor n), which the adder keeps in n's slot, xor bit 30 of G.
pub(crate) fn sign_gate(x: u32, i: usize) -> GateCode
    ensures { read result ≡ fetched (sign_program 32 x) i }
{
    if i < SIGN_BIT {
        return adder_gate(x, i);
    }
    match i {
        SIGN_BIT => with_constant(Op::Bit, T_SLOT, G_SLOT, WIDTH - 2),
        SIGN_XOR => on_slots(Op::Xor, T_SLOT, T_SLOT, N_SLOT),
        _ => number_gate(i - SIGN_NUMBER),
    }
}
