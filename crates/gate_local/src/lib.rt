// What a gate writes on a lane before any word is exchanged: one slot, in place. All three hosts go through `step_mask`
// and `step_m`, but for a deal of host 0, which writes its two masks itself (crate `dealer_gate`).
#![tactic(auto)]

ghost use Rattle.std.specs.Prelude.{◌≡◌, slice_set, MatchOption};
ghost use Rattle.gates.specs.Hosts.{on_m, on_mask};
ghost use Rattle.gates.specs.Codes.{step_of};

use gates::{GateCode, Op};
use word_lists::{at, put};
use word_parts::{bit_of, field, shift_up, signed_floor};

// The word that g writes on a lane of masks, where v is this mask's word of a deal: a constant or a known value has the
// masks 0. A product or refresh writes nothing yet.
fn mask_word(g: GateCode, v: u32, l: &[u32; 24]) -> Option<u32>
    ensures { MatchOption result
        (l.now ≡ on_mask (step_of 32 g) v l.now)
        (λ w. slice_set l.now g.d w ≡ on_mask (step_of 32 g) v l.now) }
{
    let x = at(l, g.a);
    match Op::from(g.op) {
        Op::Add => Some(x.wrapping_add(at(l, g.b))),
        Op::Sub => Some(x.wrapping_sub(at(l, g.b))),
        Op::Xor => Some(x ^ at(l, g.b)),
        Op::Scale => Some(words::wrapping_mul(x, g.n)),
        Op::Plus => Some(x),
        Op::Up => Some(shift_up(x, g.n)),
        Op::Bit => Some(bit_of(x, g.n)),
        Op::Const | Op::Public | Op::PublicSigned => Some(0),
        Op::DealSum | Op::DealNegated | Op::DealSigned | Op::DealXor | Op::DealBits => Some(v),
        _ => None,
    }
}

// On the lane m of hosts 1 and 2, where a constant and a known value enter. Every other gate does here what it does on
// a mask; after a deal m is 0.
fn m_word(g: GateCode, m: &[u32; 24]) -> Option<u32>
    ensures { MatchOption result
        (m.now ≡ on_m (step_of 32 g) m.now)
        (λ w. slice_set m.now g.d w ≡ on_m (step_of 32 g) m.now) }
{
    match Op::from(g.op) {
        Op::Plus => Some(at(m, g.a).wrapping_add(g.n)),
        Op::Const => Some(g.n),
        Op::Public => Some(field(at(m, g.a), g.n, g.b)),
        Op::PublicSigned => Some(signed_floor(at(m, g.a), g.n)),
        _ => mask_word(g, 0, m),
    }
}

// What g writes on a lane of masks, in place; v is this mask's word of a deal.
pub fn step_mask(g: GateCode, v: u32, l: &mut [u32; 24])
    ensures { l.new ≡ on_mask (step_of 32 g) v l.old }
{
    if let Some(word) = mask_word(g, v, l) {
        put(l, g.d, word);
    }
}

// What g writes on the lane m, in place.
pub fn step_m(g: GateCode, m: &mut [u32; 24])
    ensures { m.new ≡ on_m (step_of 32 g) m.old }
{
    if let Some(word) = m_word(g, m) {
        put(m, g.d, word);
    }
}
