// The structs of include/lamphiek.h as words, in and out. Functions and no `From`: the types are other crates'.
ghost use Rattle.std.specs.Prelude.{◌≡◌, ◌+◌, ◌≤◌, length, take, drop};
ghost use Rattle.worker.specs.Answers.{state_of, lanes_of};
ghost use Rattle.lamphiek.specs.Layout.{state_in, state_out, registers_in, masks_in, masks_out};

use calls::Stored;
use dealer::Masks;
use worker::{Registers, State};

// N words, from index at on: a lane of a state, or one word for each register.
fn words_at<const N: usize>(words: &[u32], at: usize) -> [u32; N]
    requires { at + N ≤ length words.now }
    ensures { result ≡ take N (drop at words.now) }
{
    let mut part = [0u32; N];
    part.copy_from_slice(&words[at..at + N]);
    part
}

pub(crate) fn state_in(words: &[u32; 53]) -> State
    ensures { state_of result ≡ state_in words.now }
{
    let m = words_at::<24>(words, 0);
    let mask = words_at::<24>(words, 24);
    State {
        m,
        mask,
        order: words[48],
        turn: words[49],
        stored: Stored {
            a: words[50],
            b: words[51],
            deals: words[52],
        },
    }
}

pub(crate) fn registers_in(words: &[u32; 53]) -> Registers
    ensures { lanes_of result ≡ registers_in words.now }
{
    let m = words_at::<16>(words, 0);
    let mask = words_at::<16>(words, 24);
    Registers { m, mask }
}

pub(crate) fn put_state(words: &mut [u32; 53], s: State)
    ensures { words.new ≡ state_out (state_of s) }
{
    let m = s.m;
    let mask = s.mask;
    words[..24].copy_from_slice(&m);
    words[24..48].copy_from_slice(&mask);
    words[48] = s.order;
    words[49] = s.turn;
    words[50] = s.stored.a;
    words[51] = s.stored.b;
    words[52] = s.stored.deals;
}

pub(crate) fn masks_in(words: &[u32; 32]) -> Masks
    ensures { (result.l1, result.l2) ≡ masks_in words.now }
{
    let l1 = words_at::<16>(words, 0);
    let l2 = words_at::<16>(words, 16);
    Masks { l1, l2 }
}

pub(crate) fn put_masks(words: &mut [u32; 32], masks: Masks)
    ensures { words.new ≡ masks_out (masks.l1, masks.l2) }
{
    let l1 = masks.l1;
    let l2 = masks.l2;
    words[..16].copy_from_slice(&l1);
    words[16..].copy_from_slice(&l2);
}
