// Runs of quarters as bits, 32 quarters to a word.
ghost use Rattle.std.specs.Prelude.{◌≡◌, ◌&&◌, ◌+◌, ◌/◌, leb, ltb};
ghost use Rattle.calendars.specs.Ranges.{packed};

// The first quarter that begins at a minute or after it.
pub(crate) fn quarter_from(minute: u32) -> u32
    ensures { result ≡ (minute + 14) / 15 }
{
    ((minute as usize + 14) / 15) as u32
}

// The quarters before `end`, of the 32 from `first` on.
pub(crate) fn before(end: u32, first: u32) -> u32
    ensures { result ≡ packed (λ k. ltb k end) first 32 }
{
    if end <= first {
        return 0;
    }
    let n = end - first;
    if 32 <= n {
        return 4294967295;
    }
    (1u32 << n) - 1
}

// The quarters from `start` to `end`, of the 32 from `first` on.
pub(crate) fn span(start: u32, end: u32, first: u32) -> u32
    ensures { result ≡ packed (λ k. leb start k && ltb k end) first 32 }
{
    if end <= start {
        return 0;
    }
    before(end, first) - before(start, first)
}
