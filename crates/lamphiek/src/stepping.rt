// The three hosts' calls: preparation, starting, hearing.
ghost use Rattle.std.specs.Prelude.{◌≡◌, List, ℕ};
ghost use Rattle.dealer.specs.Answers as Dealer;
ghost use Rattle.worker.specs.Answers.{answer_of};
ghost use Rattle.lamphiek.specs.Stepping.{preparation, prepared, masks_left};
ghost use Rattle.lamphiek.specs.Stepping.{starting, hearing, spoken, state_left};

use crate::layout::{masks_in, put_masks, put_state, registers_in, state_in};
use crate::{Answer, turned_down};
use dealer::{Prepared, prepare};
use worker::start;

// The dealer's answer: its masks go into the lent words, its numbers are given.
pub(crate) fn put_prepared(masks: &mut [u32; 32], p: Result<Prepared, dealer::Refused>) -> Answer
    ensures answer { (buffer : List ℕ) → result ≡ prepared (Dealer.answer p buffer) }
    ensures masks { (buffer : List ℕ) → masks.new ≡ masks_left (Dealer.answer p buffer) masks.old }
{
    let done = match p {
        Ok(done) => done,
        Err(refused) => return turned_down(refused.refusal),
    };
    put_masks(masks, done.masks);
    Answer {
        number: 0,
        index: 0,
        count: done.deals,
        word: 0,
    }
}

// Host 0 prepares: its deals are written, and its masks of the results over those of the registers. Numbers 2 to 7.
#[unsafe(no_mangle)]
pub extern "C" fn lamphiek_prepare(
    masks: &mut [u32; 32],
    job: &[u32],
    table: &[u32],
    a: &[u32],
    b: &[u32],
    deals: &mut [u32],
) -> Answer
    ensures answer { result
        ≡ prepared (preparation masks.old job.now table.now a.now
        b.now deals.old) }
    ensures buffer { deals.new
        ≡ (preparation masks.old job.now table.now a.now
        b.now deals.old).buffer }
    ensures masks { masks.new
        ≡ masks_left (preparation masks.old job.now table.now a.now
        b.now deals.old)
        masks.old }
{
    let p = prepare(job, table, a, b, deals, masks_in(masks));
    put_prepared(masks, p)
}

// A worker's answer: its state goes into the lent words, its numbers are given.
pub(crate) fn put_answer(
    state: &mut [u32; 53],
    a: Result<worker::Answer, worker::Refused>,
) -> Answer
    ensures answer { result ≡ spoken (answer_of a) }
    ensures state { state.new ≡ state_left (answer_of a) state.old }
{
    let said = match a {
        Ok(said) => said,
        Err(held) => return turned_down(held.refusal),
    };
    put_state(state, said.state);
    Answer {
        number: 0,
        index: 0,
        count: said.spoken,
        word: said.word,
    }
}

// Host 1 or 2 starts: from the registers in its state to its first word. Numbers 1 to 7.
#[unsafe(no_mangle)]
pub extern "C" fn lamphiek_start(
    state: &mut [u32; 53],
    host: u32,
    job: &[u32],
    table: &[u32],
    masks: &[u32],
    deals: &[u32],
) -> Answer
    ensures answer { result
        ≡ spoken (starting state.old host job.now table.now masks.now
        deals.now) }
    ensures state { state.new
        ≡ state_left (starting state.old host job.now table.now masks.now
        deals.now)
        state.old }
{
    let a = start(host, job, table, masks, deals, registers_in(state));
    put_answer(state, a)
}

// Host 1 or 2 hears the word that the other spoke at its place: up to its own next word. Numbers 1 to 8, 18, 9.
#[unsafe(no_mangle)]
pub extern "C" fn lamphiek_hear(
    state: &mut [u32; 53],
    host: u32,
    job: &[u32],
    table: &[u32],
    masks: &[u32],
    deals: &[u32],
    heard: u32,
) -> Answer
    ensures answer { result
        ≡ spoken (hearing state.old host job.now table.now masks.now
        deals.now heard) }
    ensures state { state.new
        ≡ state_left (hearing state.old host job.now table.now masks.now
        deals.now heard)
        state.old }
{
    let a = state_in(state).hear(host, job, table, masks, deals, heard);
    put_answer(state, a)
}
