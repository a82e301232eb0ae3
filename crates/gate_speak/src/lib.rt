// The words that are spoken at a gate: document 01's formulas on words. The definitions stand with the gates (`Speech`,
// `Codes`).
#![tactic(auto)]

ghost use Rattle.std.specs.Prelude.{◌≡◌};
ghost use Rattle.shares.specs.Gates.{product_word1, product_word2, refresh_word1, refresh_word2};
ghost use Rattle.shares.specs.Gates.{known_product_word1, known_product_word2};
ghost use Rattle.gates.specs.Speech.{spoken1, spoken2, met};
ghost use Rattle.gates.specs.Codes.{step_of};

use gates::{GateCode, Op};
use word_lists::at;
use words::rings::{Arithmetic, Bits, Numbers};

// ---- the formulas, over the arithmetic of numbers or of bits

// ma × mb - ma × Lb1 - mb × La1 + g1 + L1.
fn product_word1<R: Arithmetic>(ma: u32, mb: u32, a1: u32, b1: u32, g1: u32, l1: u32) -> u32
    ensures { result ≡ product_word1 R.ring ma mb a1 b1 g1 l1 }
{
    let q = R::minus(R::times(ma, mb), R::times(ma, b1));
    let r = R::minus(q, R::times(mb, a1));
    R::plus(R::plus(r, g1), l1)
}

// g2 - ma × Lb2 - mb × La2 + L2.
fn product_word2<R: Arithmetic>(ma: u32, mb: u32, a2: u32, b2: u32, g2: u32, l2: u32) -> u32
    ensures { result ≡ product_word2 R.ring ma mb a2 b2 g2 l2 }
{
    let q = R::minus(g2, R::times(ma, b2));
    R::plus(R::minus(q, R::times(mb, a2)), l2)
}

// ma - La1 + L1.
fn refresh_word1<R: Arithmetic>(ma: u32, a1: u32, l1: u32) -> u32
    ensures { result ≡ refresh_word1 R.ring ma a1 l1 }
{
    R::plus(R::minus(ma, a1), l1)
}

// L2 - La2.
fn refresh_word2<R: Arithmetic>(a2: u32, l2: u32) -> u32
    ensures { result ≡ refresh_word2 R.ring a2 l2 }
{
    R::minus(l2, a2)
}

// v × mb - v × Lb1 + L1, with a known value v.
fn known_word1<R: Arithmetic>(v: u32, mb: u32, b1: u32, l1: u32) -> u32
    ensures { result ≡ known_product_word1 R.ring v mb b1 l1 }
{
    R::plus(R::minus(R::times(v, mb), R::times(v, b1)), l1)
}

// L2 - v × Lb2.
fn known_word2<R: Arithmetic>(v: u32, b2: u32, l2: u32) -> u32
    ensures { result ≡ known_product_word2 R.ring v b2 l2 }
{
    R::minus(l2, R::times(v, b2))
}

// ---- the gates

// The word that host 1 speaks, with its part g1 of a product and its new mask.
pub fn word1(g: GateCode, m: &[u32; 24], l: &[u32; 24], g1: u32, l1: u32) -> u32
    ensures { result ≡ spoken1 (step_of 32 g) m.now l.now g1 l1 }
{
    let a = g.a;
    let b = g.b;
    match Op::from(g.op) {
        Op::Mul => product_word1::<Numbers>(at(m, a), at(m, b), at(l, a), at(l, b), g1, l1),
        Op::And => product_word1::<Bits>(at(m, a), at(m, b), at(l, a), at(l, b), g1, l1),
        Op::Refresh => refresh_word1::<Numbers>(at(m, a), at(l, a), l1),
        Op::MulKnown => known_word1::<Numbers>(at(m, a), at(m, b), at(l, b), l1),
        Op::AndKnown => known_word1::<Bits>(at(m, a), at(m, b), at(l, b), l1),
        _ => 0,
    }
}

// The word that host 2 speaks, with the deal g2 and its new mask.
pub fn word2(g: GateCode, m: &[u32; 24], l: &[u32; 24], g2: u32, l2: u32) -> u32
    ensures { result ≡ spoken2 (step_of 32 g) m.now l.now g2 l2 }
{
    let a = g.a;
    let b = g.b;
    match Op::from(g.op) {
        Op::Mul => product_word2::<Numbers>(at(m, a), at(m, b), at(l, a), at(l, b), g2, l2),
        Op::And => product_word2::<Bits>(at(m, a), at(m, b), at(l, a), at(l, b), g2, l2),
        Op::Refresh => refresh_word2::<Numbers>(at(l, a), l2),
        Op::MulKnown => known_word2::<Numbers>(at(m, a), at(l, b), l2),
        Op::AndKnown => known_word2::<Bits>(at(m, a), at(l, b), l2),
        _ => 0,
    }
}

// The new m of an exchange: the sum of host 1's word u and host 2's word v.
pub fn met_word(g: GateCode, u: u32, v: u32) -> u32
    ensures { result ≡ met (step_of 32 g) u v }
{
    match Op::from(g.op) {
        Op::Mul => Numbers::plus(u, v),
        Op::And => Bits::plus(u, v),
        Op::Refresh => Numbers::plus(u, v),
        Op::MulKnown => Numbers::plus(u, v),
        Op::AndKnown => Bits::plus(u, v),
        _ => 0,
    }
}
