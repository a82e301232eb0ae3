// A lane's slots and a list's words. Reading past the last one gives 0 and writing there does nothing, so that every
// gate has a meaning on every lane.
#![tactic(auto)]

ghost use Rattle.std.specs.Prelude.{◌≡◌, ◌+◌, set};
ghost use Rattle.gates.specs.Steps as Steps;
ghost use Rattle.word_lists.specs.Copied.{front_copied};

// ---- the accessors go by a slice, whose length is there to test: no contract speaks of bounds

// A word of a list; past the end stands 0, as in the definitions.
pub fn word_at(words: &[u32], i: usize) -> u32
    ensures { result ≡ Steps.at words.now i }
{
    words.get(i).copied().unwrap_or(0)
}

// The word after the i-th, for every i.
pub fn word_after(words: &[u32], i: usize) -> u32
    ensures { result ≡ Steps.at words.now (i + 1) }
{
    if i < words.len() {
        word_at(words, i + 1)
    } else {
        0
    }
}

// Past the end nothing is written.
pub fn put_word(words: &mut [u32], at: usize, v: u32)
    ensures { words.new ≡ set words.old at v }
{
    if at < words.len() {
        words[at] = v;
    }
}

// A lane's slot is a word of a gate: `at` and `put` spare each formula a cast and a borrow.
pub fn at(lane: &[u32; 24], i: u32) -> u32
    ensures { result ≡ Steps.at lane.now i }
{
    word_at(lane, i as usize)
}

pub fn put(lane: &mut [u32; 24], d: u32, v: u32)
    ensures { lane.new ≡ set lane.old d v }
{
    put_word(lane, d as usize, v);
}

// The first n words of a list are written over those of another, where both have so many.
pub fn copy_front(from: &[u32], to: &mut [u32], n: usize)
    ensures { to.new ≡ front_copied from.now to.old n }
{
    if from.len() < n {
        return;
    }
    if to.len() < n {
        return;
    }
    to[..n].copy_from_slice(&from[..n]);
}
