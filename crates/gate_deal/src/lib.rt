// What host 0 deals at a gate: document 01's formulas on words. The definitions stand with the gates (`Speech`,
// `Meaning`, `Codes`).
#![tactic(auto)]

ghost use Rattle.std.specs.Prelude.{◌≡◌};
ghost use Rattle.words.specs.Words.{add, neg};
ghost use Rattle.shares.specs.Gates.{product_deal};
ghost use Rattle.gates.specs.Speech.{dealt_word};
ghost use Rattle.gates.specs.Codes.{step_of};

use gates::{GateCode, Op};
use word_lists::at;
use word_parts::{field, signed_floor};
use words::rings::{Arithmetic, Bits, Numbers};

// -L, where L = L1 + L2.
fn negated_sum(l1: u32, l2: u32) -> u32
    ensures { result ≡ neg 32 (add 32 l1 l2) }
{
    Numbers::negative(Numbers::plus(l1, l2))
}

// The second mask of a deal of v, whose first is x: -x - v.
fn second_mask<R: Arithmetic>(v: u32, x: u32) -> u32
    ensures { result ≡ R.ring.sub (R.ring.neg x) v }
{
    R::minus(R::negative(x), v)
}

// g2 = La × Lb - g1.
fn product_deal<R: Arithmetic>(a1: u32, a2: u32, b1: u32, b2: u32, g1: u32) -> u32
    ensures { result ≡ product_deal R.ring a1 a2 b1 b2 g1 }
{
    let a = R::plus(a1, a2);
    let b = R::plus(b1, b2);
    R::minus(R::times(a, b), g1)
}

// Host 0's deal; x is the A word of the first mask, or g1 of a product.
pub fn deal_word(g: GateCode, x: u32, l1: &[u32; 24], l2: &[u32; 24]) -> u32
    ensures { result ≡ dealt_word (step_of 32 g) x l1.now l2.now }
{
    let a1 = at(l1, g.a);
    let a2 = at(l2, g.a);
    match Op::from(g.op) {
        Op::DealSum => second_mask::<Numbers>(field(Numbers::plus(a1, a2), g.n, g.b), x),
        Op::DealNegated => second_mask::<Numbers>(field(negated_sum(a1, a2), g.n, g.b), x),
        Op::DealSigned => second_mask::<Numbers>(signed_floor(negated_sum(a1, a2), g.n), x),
        Op::DealXor => second_mask::<Numbers>(a1 ^ a2, x),
        Op::DealBits => second_mask::<Bits>(negated_sum(a1, a2), x),
        Op::Mul => product_deal::<Numbers>(a1, a2, at(l1, g.b), at(l2, g.b), x),
        Op::And => product_deal::<Bits>(a1, a2, at(l1, g.b), at(l2, g.b), x),
        _ => 0,
    }
}
