// The quarters that count, as bits: whether one does, how many do before it, and which is the next.
ghost use Rattle.std.specs.Prelude.{◌≡◌, ◌-◌, ◌≤◌, ◌<◌, ltb, eqb};
ghost use Rattle.std.specs.Int.Bits.{bit_and};
ghost use Rattle.std.specs.Int.Count.{ones};
ghost use Rattle.words.specs.Words.{bit};
ghost use Rattle.calendars.specs.Ranges.{number, next, packed};
ghost use Rattle.calendars.specs.Quarters.{held};

use crate::Quarters;
use crate::spans::before;

fn bit_at(word: u32, i: u32) -> bool
    requires { i < 32 }
    ensures { result ≡ eqb (bit word i) 1 }
{
    (word >> i) % 2 == 1
}

// Whether a quarter counts; none does from 96 on.
pub fn counts_at(x: Quarters, quarter: u32) -> bool
    ensures { result ≡ held x quarter }
{
    quarter < 96 && bit_at(x.words[(quarter / 32) as usize], quarter % 32)
}

// How many of a word's bits stand for quarters before one, where its 32 quarters are those from `first` on.
fn ones_before(word: u32, quarter: u32, first: u32) -> u32
    ensures are { result ≡ ones (bit_and word (packed (λ k. ltb k quarter) first 32)) }
    ensures few { result ≤ 32 }
{
    u32::count_ones(word & before(quarter, first))
}

// How many quarters count before one.
pub fn counted_before(x: Quarters, quarter: u32) -> u32
    ensures { result ≡ number (held x) 0 quarter }
{
    ones_before(x.words[0], quarter, 0)
        + ones_before(x.words[1], quarter, 32)
        + ones_before(x.words[2], quarter, 64)
}

// The first quarter that counts, from one on; where none does, 96, or the quarter itself if it is above.
pub fn next_counted(x: Quarters, quarter: u32) -> u32
    ensures { result ≡ next (held x) quarter (96 - quarter) }
{
    for q in quarter..96 {
        if counts_at(x, q) {
            return q;
        }
    }
    quarter.max(96)
}
