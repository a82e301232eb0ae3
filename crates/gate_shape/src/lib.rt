// What a walk does at a gate, and what it uses there. The definitions stand with the gates (`Speech`, `Codes`,
// `Costs`).
#![tactic(auto)]

ghost use Rattle.std.specs.Prelude.{◌≡◌, ◌↔◌, [], ◌∷◌, IsTrue};
ghost use Rattle.gates.specs.Speech.{shape};
ghost use Rattle.gates.specs.Codes.{step_of};
ghost use Rattle.gates.specs.Costs.{used_at};
ghost use Rattle.gates.specs.Walk.{Exchanging};

use gates::{GateCode, Op, Shape, Used};

// A product or refresh waits for a word; a deal takes one; every other gate is local.
pub fn shape_of(g: GateCode) -> Shape
    ensures { result ≡ shape (step_of 32 g) }
{
    let d = g.d;
    match Op::from(g.op) {
        Op::Add
        | Op::Sub
        | Op::Xor
        | Op::Scale
        | Op::Plus
        | Op::Up
        | Op::Bit
        | Op::Const
        | Op::Public
        | Op::PublicSigned => Shape::Local,
        Op::DealSum | Op::DealNegated | Op::DealSigned | Op::DealXor | Op::DealBits => {
            Shape::Dealing { d }
        }
        Op::Mul | Op::And => Shape::Product { d },
        Op::Refresh | Op::MulKnown | Op::AndKnown => Shape::Undealt { d },
        Op::Past => Shape::Local,
    }
}

// Whether hosts 1 and 2 exchange words at the gate: a product or refresh, which a walk halts at.
pub fn exchanges(g: GateCode) -> bool
    ensures { IsTrue result ↔ Exchanging (step_of 32 g ∷ []) }
{
    matches!(shape_of(g), Shape::Product { .. } | Shape::Undealt { .. })
}

// A deal takes its first mask from A; a product g1 and a mask of A, a mask of B, and a deal; a refresh and a product
// with a known value a mask of each.
pub fn used_by(g: GateCode) -> Used
    ensures { result ≡ used_at (step_of 32 g) }
{
    match shape_of(g) {
        Shape::Local => Used {
            a: 0,
            b: 0,
            deals: 0,
        },
        Shape::Dealing { d: _ } => Used {
            a: 1,
            b: 0,
            deals: 1,
        },
        Shape::Product { d: _ } => Used {
            a: 2,
            b: 1,
            deals: 1,
        },
        Shape::Undealt { d: _ } => Used {
            a: 1,
            b: 1,
            deals: 0,
        },
    }
}
