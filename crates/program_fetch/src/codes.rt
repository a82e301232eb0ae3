// A gate written with its operands: those that it does not use are 0.
ghost use Rattle.std.specs.Prelude.{◌≡◌};
ghost use Rattle.gates.specs.Codes.{Past, gate_with, read};

use gates::{GateCode, Op};

// An operation on two slots, or on one.
pub(crate) fn on_slots(op: Op, d: u32, a: u32, b: u32) -> GateCode
    ensures { read result ≡ gate_with op d a b 0 }
{
    GateCode {
        op: op as u32,
        d,
        a,
        b,
        n: 0,
    }
}

// An operation on a slot with a constant.
pub(crate) fn with_constant(op: Op, d: u32, a: u32, n: u32) -> GateCode
    ensures { read result ≡ gate_with op d a 0 n }
{
    GateCode {
        op: op as u32,
        d,
        a,
        b: 0,
        n,
    }
}

// An operation on j bits of a slot, from bit k on.
pub(crate) fn with_part(op: Op, d: u32, a: u32, k: u32, j: u32) -> GateCode
    ensures { read result ≡ gate_with op d a j k }
{
    GateCode {
        op: op as u32,
        d,
        a,
        b: j,
        n: k,
    }
}

// No gate.
pub(crate) fn past() -> GateCode
    ensures { read result ≡ Past }
{
    on_slots(Op::Past, 0, 0, 0)
}
