// Plain arithmetic on words, apart from the engine's: products in 64 bits, floors by the size of a number.
// Sums wrap at 2^32; the curve's numbers stay far below that.

// The number that a word stands for, from -2^31 to 2^31 - 1.
pub(crate) fn number(x: u32) -> i64 {
    i64::from(x.cast_signed())
}

// x, or 0 where it stands for a negative number.
pub(crate) fn positive(x: u32) -> u32 {
    if x.cast_signed() < 0 { 0 } else { x }
}

pub(crate) fn product(x: u32, y: u32) -> u32 {
    (u64::from(x) * u64::from(y) % (1 << 32)) as u32
}

// x / d, rounded down; 0 where d is 0.
fn quotient(x: u32, d: u32) -> u32 {
    x.checked_div(d).unwrap_or(0)
}

// floor(x / d) of a signed x. For a negative one, -1 - x is !x, and -1 less its quotient is the floor.
pub(crate) fn floor(x: u32, d: u32) -> u32 {
    if x.cast_signed() < 0 {
        !quotient(!x, d)
    } else {
        quotient(x, d)
    }
}

// floor(x / 2^k) of a signed x.
pub(crate) fn floor_shift(x: u32, k: u32) -> u32 {
    floor(x, 1 << (k % 32))
}

// 1 where the low k bits of x and l add up to 2^k or more.
pub(crate) fn carry(x: u32, l: u32, k: u32) -> u32 {
    let low = (1u32 << (k % 32)).wrapping_sub(1);
    u32::from(low < (x & low).wrapping_add(l & low))
}

// Kind 7 for any word x = m - l: what its steps give. The top bit of l is taken from m before the shift, the rest of l
// after it.
fn one_bit_steps(m: u32, l: u32, k: u32) -> u32 {
    let shift = k % 32;
    let rest = l % (1 << 31);
    let raised = m.wrapping_add(1 << 30);
    let upper = raised.wrapping_sub(l - rest) >> shift;
    let lower = (rest >> shift).wrapping_add((1 << 30) >> shift);
    upper.wrapping_sub(lower)
}

// Kind 7: within the range of readings, -2^30 to 2^30 - 1, the floor and a carry; elsewhere the steps.
pub(crate) fn one_bit(x: u32, l: u32, k: u32) -> u32 {
    if x.wrapping_add(1 << 30) < 1 << 31 {
        floor_shift(x, k).wrapping_add(carry(x, l, k))
    } else {
        one_bit_steps(x.wrapping_add(l), l, k)
    }
}
