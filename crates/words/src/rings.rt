// The two arithmetics of words, as numbers and as bits.
ghost use Rattle.std.specs.Prelude.{◌≡◌, ℕ};
ghost use Rattle.words.specs.Ring.{Ops};
ghost use Rattle.words.specs.Words.{numbers, bits};

use crate::wrapping_mul;

// An arithmetic of words. Document 01 writes a formula for numbers and has it hold for bits, with `and` for times and
// xor for plus and minus: the code is written once, over either.
pub trait Arithmetic {
    ghost ring: { Ops ℕ };

    fn plus(x: u32, y: u32) -> u32
        ensures { result ≡ ring.add x y };

    fn minus(x: u32, y: u32) -> u32
        ensures { result ≡ ring.sub x y };

    fn times(x: u32, y: u32) -> u32
        ensures { result ≡ ring.mul x y };

    fn negative(x: u32) -> u32
        ensures { result ≡ ring.neg x };
}

// Words as numbers modulo 2^32.
pub struct Numbers;

impl Arithmetic for Numbers {
    ghost ring = { numbers 32 };

    fn plus(x: u32, y: u32) -> u32 {
        x.wrapping_add(y)
    }

    fn minus(x: u32, y: u32) -> u32 {
        x.wrapping_sub(y)
    }

    fn times(x: u32, y: u32) -> u32 {
        wrapping_mul(x, y)
    }

    fn negative(x: u32) -> u32 {
        0u32.wrapping_sub(x)
    }
}

// Words as 32 bits.
pub struct Bits;

impl Arithmetic for Bits {
    ghost ring = { bits 32 };

    fn plus(x: u32, y: u32) -> u32 {
        x ^ y
    }

    fn minus(x: u32, y: u32) -> u32 {
        x ^ y
    }

    fn times(x: u32, y: u32) -> u32 {
        x & y
    }

    fn negative(x: u32) -> u32 {
        x
    }
}
