// A host at one gate: what it writes where no word is exchanged, the word that it speaks at a product or refresh, and
// what it writes when it has heard the other's.
#![tactic(auto)]

ghost use Rattle.std.specs.Prelude.{◌≡◌, [], ◌∷◌};
ghost use Rattle.gates.specs.Codes.{step_of};
ghost use Rattle.gates.specs.Hosts.{on_m, on_mask, pair_of};
ghost use Rattle.calls.specs.Calls.{word_at};
ghost use Rattle.walks.specs.Workers.{deal_taken, new_mask, sum_of, heard_at};

use gate_local::{step_m, step_mask};
use gate_shape::{shape_of, used_by};
use gate_speak::{met_word, word1, word2};
use gates::{GateCode, Lanes, Shape, Used};
use word_lists::{put, word_after, word_at};

// Host 1 or 2 with what it is lent: its masks, A of host 1 and B of host 2, and the deals. Its lanes are m and its
// mask. Its methods take it by reference: by value a starting takes 43 instructions more of some 1,200.
// The host stays the number that a call names: the methods answer on every number, as the definitions do.
#[derive(Clone, Copy)]
pub struct Worker<'a> {
    pub host: u32,
    pub masks: &'a [u32],
    pub deals: &'a [u32],
}

impl Worker<'_> {
    ghost use Rattle.worker_gate.specs.Workers.{worker, used_to};

    // Host 1 takes its mask of a deal from A, host 2 takes the deal.
    #[tactic(auto, unfolding(walks::specs::Workers::deal_taken))]
    fn deal_taken(&self, used: Used) -> u32
        ensures { result ≡ deal_taken self.now.host self.now.masks.now self.now.deals.now used.a used.deals }
    {
        if self.host == 1 {
            word_at(self.masks, used.a)
        } else {
            word_at(self.deals, used.deals)
        }
    }

    // A gate at which no word is exchanged.
    pub fn step(&self, g: GateCode, used: Used, lanes: &mut Lanes)
        ensures { (lanes.new.first ≡ on_m (step_of 32 g) lanes.old.first)
            × (lanes.new.second
            ≡ on_mask (step_of 32 g)
            (deal_taken self.now.host self.now.masks.now self.now.deals.now used.a used.deals)
            lanes.old.second) }
    {
        step_m(g, &mut lanes.first);
        // a local gate takes nothing
        match shape_of(g) {
            Shape::Dealing { .. } => step_mask(g, self.deal_taken(used), &mut lanes.second),
            _ => step_mask(g, 0, &mut lanes.second),
        }
    }

    // Host 1's new mask is from A, after g1 where the gate uses two words of it, host 2's from B.
    fn new_mask(&self, g: GateCode, used: Used) -> u32
        ensures { result ≡ new_mask self.now.host self.now.masks.now (step_of 32 g) used.a used.b }
    {
        let more = used_by(g).a;
        match self.host {
            1 => match more {
                2 => word_after(self.masks, used.a),
                _ => word_at(self.masks, used.a),
            },
            _ => word_at(self.masks, used.b),
        }
    }

    // The word that the host speaks at a product or refresh.
    pub fn say(&self, g: GateCode, used: Used, lanes: &Lanes) -> u32
        ensures { result
            ≡ word_at (worker self.now).say (step_of 32 g ∷ []) (used_to 0 0 used) (pair_of lanes.now) }
    {
        let m = &lanes.first;
        let mask = &lanes.second;
        let new = self.new_mask(g, used);
        if self.host == 1 {
            word1(g, m, mask, word_at(self.masks, used.a), new)
        } else {
            word2(g, m, mask, word_at(self.deals, used.deals), new)
        }
    }

    // Host 1's word and host 2's, whichever the host itself spoke.
    #[tactic(auto, unfolding(walks::specs::Workers::sum_of))]
    fn sum_of(&self, g: GateCode, own: u32, heard: u32) -> u32
        ensures { result ≡ sum_of self.now.host (step_of 32 g) own heard }
    {
        if self.host == 1 {
            met_word(g, own, heard)
        } else {
            met_word(g, heard, own)
        }
    }

    // The other's word is heard at a product or refresh: the host works its own word out again, and writes their sum
    // and its new mask.
    pub fn meet(&self, g: GateCode, used: Used, heard: u32, lanes: &mut Lanes)
        ensures { pair_of lanes.new
            ≡ heard_at (worker self.now) (step_of 32 g) (used_to 0 0 used) (pair_of lanes.old) heard }
    {
        let own = self.say(g, used, lanes);
        let new = self.new_mask(g, used);
        let sum = self.sum_of(g, own, heard);
        match shape_of(g) {
            Shape::Product { d } | Shape::Undealt { d } => {
                put(&mut lanes.first, d, sum);
                put(&mut lanes.second, d, new);
            }
            Shape::Local | Shape::Dealing { d: _ } => {}
        }
    }
}
