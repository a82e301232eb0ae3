// Additions and subtractions of a job, on lanes in place (R-2): all three hosts go through `add_in_place`.
#![tactic(auto)]

ghost use Rattle.std.specs.Prelude.{◌≡◌};
ghost use Rattle.jobs.specs.Additions.{added};
ghost use Rattle.job_add.specs.Here.{adds_here};

use gates::Lanes;
use programs::{Kind, Order};
use word_lists::{at, put};

// Whether a walk that stands at a gate of an order can do the order at once: it is at the first gate, and the order
// adds or subtracts registers, as every addition and subtraction of an accepted job does.
#[tactic(auto, unfolding(crate::specs::Here::adds_here))]
pub fn adds_here(o: Order, gate: usize) -> bool
    ensures { result ≡ adds_here o gate }
{
    gate == 0
        && o.kind < Kind::AddConstant as u32
        && o.target < 16
        && o.source < 16
        && o.fourth < 16
}

// On one lane: kind 0 adds and kind 1 subtracts. Of all slots the target's alone is written, from what the sources
// held.
fn write_target(o: Order, lane: &mut [u32; 24])
    ensures { lane.new ≡ added 32 o lane.old }
{
    let x = at(lane, o.source);
    let y = at(lane, o.fourth);
    if o.kind == Kind::Add as u32 {
        put(lane, o.target, std::num::wrapping_add_u32(x, y));
        return;
    }
    put(lane, o.target, std::num::wrapping_sub_u32(x, y));
}

// On both lanes of a host.
pub fn add_in_place(o: Order, lanes: &mut Lanes)
    ensures { (lanes.new.first ≡ added 32 o lanes.old.first)
        × (lanes.new.second ≡ added 32 o lanes.old.second) }
{
    write_target(o, &mut lanes.first);
    write_target(o, &mut lanes.second);
}
