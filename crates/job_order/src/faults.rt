// The faults of one order: conditions 3, 4 and 5 of document 01, "Turned down".
ghost use Rattle.std.specs.Prelude.{◌≡◌};
ghost use Rattle.programs.specs.Kinds.{kind_number};
ghost use Rattle.jobs.specs.Job.{no_shift, unknown_register, ill_fourth, order_fault};
ghost use Rattle.jobs.specs.Refusals.{number_met};

use jobs::Condition;
use programs::{Kind, Order};

fn no_shift(k: u32, most: u32) -> bool
    ensures { result ≡ no_shift k most }
{
    k == 0 || most < k
}

// Condition 4: a target or source above 15.
fn unknown_register(o: Order, kind: Kind) -> bool
    requires { kind_number kind ≡ o.kind }
    ensures { result ≡ unknown_register o }
{
    if 15 < o.target || 15 < o.source {
        return true;
    }
    // The fourth word is a second source for these kinds alone.
    match kind {
        Kind::Add | Kind::Subtract | Kind::Product => 15 < o.fourth,
        _ => false,
    }
}

// Condition 5: a fourth word outside its range, or a curve whose table breaks its rules.
fn ill_fourth(o: Order, kind: Kind, ruled: bool) -> bool
    requires { kind_number kind ≡ o.kind }
    ensures { result ≡ ill_fourth 32 ruled o }
{
    let fourth = o.fourth;
    match kind {
        Kind::Refresh | Kind::Relu => fourth != 0,
        Kind::Slack | Kind::Exact => no_shift(fourth, 31),
        Kind::OneBit => no_shift(fourth, 30),
        Kind::Curve => 1 < fourth || !ruled,
        _ => false, // a register, or any constant
    }
}

// The first condition that the order meets.
pub fn order_fault(o: Order, ruled: bool) -> Option<Condition>
    ensures { number_met result ≡ order_fault 32 ruled o }
{
    let Ok(kind) = Kind::try_from(o.kind) else {
        return Some(Condition::UnknownKind);
    };
    if unknown_register(o, kind) {
        return Some(Condition::UnknownRegister);
    }
    if ill_fourth(o, kind, ruled) {
        return Some(Condition::IllOperand);
    }
    None
}
