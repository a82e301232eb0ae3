// Host 0 at one gate: its lanes are written in place, and a deal goes into the buffer behind those written before.
#![tactic(auto)]

ghost use Rattle.gates.specs.Codes.{step_of};
ghost use Rattle.walks.specs.Dealers.{Holds, dealing};
ghost use Rattle.dealer_gate.specs.Dealers.{dealer_on};

use gate_deal::deal_word;
use gate_local::step_mask;
use gate_shape::shape_of;
use gates::{GateCode, Lanes, Shape, Used};
use word_lists::{put, put_word, word_after, word_at};

// Host 0's lists of random words: A, which host 1 has too, and B, which host 2 has too.
#[derive(Clone, Copy)]
pub struct Lists<'a> {
    pub a: &'a [u32],
    pub b: &'a [u32],
}

// What host 0 writes at a gate, with so many words and deals used before it: the masks of its slot, the first from A,
// and the deal. A product's new masks come from A after g1, and from B; those of a refresh and of a product with a
// known value are the next words of both, and there is no deal. Host 2 knows a deal's second mask from the deal alone.
pub fn deal_gate(g: GateCode, lists: Lists<'_>, used: Used, lanes: &mut Lanes, deals: &mut [u32])
    ensures { Holds
        (dealing lists.entry.a.now lists.entry.b.now (step_of 32 g) (dealer_on used lanes.old deals.old))
        lanes.new.first lanes.new.second deals.new }
{
    let shape = shape_of(g);
    match shape {
        Shape::Local => {
            step_mask(g, 0, &mut lanes.first);
            step_mask(g, 0, &mut lanes.second);
            return;
        }
        Shape::Undealt { d } => {
            put(&mut lanes.first, d, word_at(lists.a, used.a));
            put(&mut lanes.second, d, word_at(lists.b, used.b));
            return;
        }
        Shape::Dealing { d: _ } | Shape::Product { d: _ } => {}
    }
    // One call for a deal and a product: the compiler inlines `deal_word` where it is called once.
    let x = word_at(lists.a, used.a);
    let word = deal_word(g, x, &lanes.first, &lanes.second);
    put_word(deals, used.deals, word);
    match shape {
        Shape::Dealing { d } => {
            put(&mut lanes.first, d, x);
            put(&mut lanes.second, d, word);
        }
        Shape::Product { d } => {
            put(&mut lanes.first, d, word_after(lists.a, used.a));
            put(&mut lanes.second, d, word_at(lists.b, used.b));
        }
        _ => {}
    }
}
