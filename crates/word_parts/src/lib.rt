// What a word has in its parts: shifts, bits and floors, total in every argument.
#![tactic(auto)]

ghost use Rattle.std.specs.Prelude.{◌≡◌, ◌%◌, ◌^◌};
ghost use Rattle.words.specs.Words.{bit, shl, shr};
ghost use Rattle.words.specs.Signed.{shr_signed};

// x shifted up by n: the bits past the word drop out, so from 32 on nothing is left.
pub fn shift_up(x: u32, n: u32) -> u32
    ensures { result ≡ shl 32 n x }
{
    x.checked_shl(n).unwrap_or(0)
}

// floor(x / 2^k), x unsigned.
fn shift_down(x: u32, k: u32) -> u32
    ensures { result ≡ shr k x }
{
    x.checked_shr(k).unwrap_or(0)
}

// Bit n of x, 0 or 1.
pub fn bit_of(x: u32, n: u32) -> u32
    ensures { result ≡ bit x n }
{
    shift_down(x, n) % 2
}

// x mod 2^j.
fn low_bits(x: u32, j: u32) -> u32
    ensures { result ≡ x % 2 ^ j }
{
    if j < 32 { x & ((1 << j) - 1) } else { x }
}

// floor(x / 2^k), x signed. Of a word that reads negative, -1 - x is shifted, which is not negative.
pub fn signed_floor(x: u32, k: u32) -> u32
    ensures { result ≡ shr_signed 32 k x }
{
    if x < 2147483648 {
        shift_down(x, k)
    } else {
        4294967295 - shift_down(4294967295 - x, k)
    }
}

// The j bits of x from bit k on.
pub fn field(x: u32, k: u32, j: u32) -> u32
    ensures { result ≡ shr k x % 2 ^ j }
{
    low_bits(shift_down(x, k), j)
}
