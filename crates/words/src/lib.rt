// Words of 32 bits, as the three hosts hold them: their two arithmetics, as numbers and as bits, and the signed
// reading.
#![tactic(auto)]

ghost use Rattle.std.specs.Prelude.{◌≡◌};
ghost use Rattle.words.specs.Words.{mul};
ghost use Rattle.words.specs.Signed.{signed, wrap};

pub mod rings;

// a * b modulo 2^32: document 01 has the program's own helper for it, beside the supplied sums and differences.
pub fn wrapping_mul(a: u32, b: u32) -> u32
    ensures { result ≡ mul 32 a b }
{
    (u64::from(a) * u64::from(b) % 4294967296) as u32
}

// The signed reading of a word, from -2^31 to 2^31 - 1. No `From` here or below: both types are the language's own.
pub fn signed_reading(x: u32) -> i64
    ensures { result ≡ signed 32 x }
{
    i64::from(x.cast_signed())
}

// The word that is z modulo 2^32.
pub fn word_of(z: i64) -> u32
    ensures { result ≡ wrap 32 z }
{
    z.rem_euclid(4294967296) as u32
}
