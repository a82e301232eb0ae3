// The engine for C: every call of document 01, of R-3's day with R-6's hours, and of R-5 under a plain name, on what
// the caller lends. include/lamphiek.h declares what is exported here; a struct that is lent is an array of words here,
// in the order of its fields.
#![tactic(auto)]

ghost use Rattle.std.specs.Prelude.{◌≡◌};
ghost use Rattle.jobs.specs.Refusals.{number_of};
ghost use Rattle.lamphiek.specs.Layout.{answer};

use jobs::Refusal;

mod checking;
mod day;
mod layout;
mod loading;
mod readings;
mod stepping;

// What a call returns: the number, 0 for none, and the order's index; a count, and the word given. What a call does not
// give is 0. Numbers, since this is C's struct.
#[repr(C)]
#[derive(Clone, Copy)]
pub struct Answer {
    pub number: u32,
    pub index: u32,
    pub count: u32,
    pub word: u32,
}

// A refusal gives its number and the order's index, and every other number in it is 0.
pub(crate) fn turned_down(refusal: Refusal) -> Answer
    ensures { result ≡ answer (number_of refusal.condition) refusal.index 0 0 }
{
    Answer {
        number: refusal.condition.number(),
        index: refusal.index,
        count: 0,
        word: 0,
    }
}
