// Words from a fixed generator: mask lists, registers, readings and tables, the same in every run.
use words::wrapping_mul;

// A linear congruential step.
fn step(x: u32) -> u32 {
    wrapping_mul(x, 1664525).wrapping_add(1013904223)
}

// The high bits of a step are its good ones: they change places with the low ones before the next.
fn next(x: u32) -> u32 {
    step(x.rotate_left(16))
}

// Word i of the stream with this seed.
pub(crate) fn word(seed: u32, i: u32) -> u32 {
    next(next(step(seed.wrapping_add(wrapping_mul(i, 2654435769)))))
}

// The stream's first words: a host's registers, its lane, or a list longer than any job of one order needs.
pub(crate) fn drawn<const N: usize>(seed: u32) -> [u32; N] {
    let mut list = [0; N];
    for (i, w) in (0..).zip(list.iter_mut()) {
        *w = word(seed, i);
    }
    list
}

// 1 to a largest number.
fn up_to(most: u32, drawn: u32) -> u32 {
    match most {
        0 => 1,
        _ => (drawn % most).wrapping_add(1),
    }
}

// Sixteen rows: the first r is below 200, each rises by 1 to so much; c is drawn below 20001.
pub(crate) fn table(seed: u32, most: u32) -> [[u32; 2]; 16] {
    let mut rows = [[0; 2]; 16];
    let mut r = word(seed, 100) % 200;
    for (i, row) in (0u32..).zip(rows.iter_mut()) {
        *row = [r, word(seed, i) % 20001];
        r = r.wrapping_add(up_to(most, word(seed, i.wrapping_add(200))));
    }
    rows
}
