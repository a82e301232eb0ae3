// Workloads for `bench/run`: standard input is the workload's digit, the orders of its job in two digits (of a day the
// quarter), and how often; printed is a sum over what came out, which bench.c prints too. Its functions promise nothing
// but that they end and stay within their bounds.
#![tactic(auto)]

mod day;
mod lists;
mod turns;

use crate::lists::Lists;
use std::io;
use std::io::Read;
use words::wrapping_mul;

// Exact curves, of register 0 into itself.
const CURVES: [[u32; 4]; 64] = [[10, 0, 0, 0]; 64];

// Additions and subtractions in turn, over all registers; at times the target is a source.
fn sum_orders() -> [[u32; 4]; 64] {
    let mut orders = [[0; 4]; 64];
    for (i, order) in orders.iter_mut().enumerate() {
        let i = i as u32;
        *order = [i % 2, (i + i / 8) % 16, i % 16, (14 * i + 2) % 16];
    }
    orders
}

// The sum over n turns of a workload on the first orders of a job, or of a day. Of curves 1 is preparation, 2 and 3 are
// starting hosts 1 and 2, and 4 is a run; of additions and subtractions 5 is preparation, 6 and 7 are starting hosts 1
// and 2; 9 is a day, and all else probing.
fn summed(workload: u8, count: u32, n: u32) -> u32 {
    let mut lists = Lists::filled();
    let orders = (count % 65) as usize;
    let all_sums = sum_orders();
    let curves = CURVES[..orders].as_flattened();
    let sums = all_sums[..orders].as_flattened();
    match workload {
        b'1' => turns::summed(n, |x| lists.preparing(curves, x)),
        b'2' => turns::summed(n, |x| lists.starting_one(curves, x)),
        b'3' => turns::summed(n, |x| lists.starting_two(curves, x)),
        b'4' => turns::summed(n, |x| lists.running(curves, x)),
        b'5' => turns::summed(n, |x| lists.preparing(sums, x)),
        b'6' => turns::summed(n, |x| lists.starting_one(sums, x)),
        b'7' => turns::summed(n, |x| lists.starting_two(sums, x)),
        b'9' => day::summed(count, &mut lists, n),
        _ => turns::mixed(n, |x| lists.probing(x)),
    }
}

// The number in the text's digits; other bytes are passed over.
fn number(text: &[u8]) -> u32 {
    text.iter().fold(0, |n, byte| match byte {
        b'0'..=b'9' => wrapping_mul(n, 10).wrapping_add(u32::from(byte - b'0')),
        _ => n,
    })
}

fn main(rt: HostRuntime) -> io::Result<()> {
    let mut bytes = [0u8; 4096];
    let n = rt.stdin().read(&mut bytes)?;
    if 5 <= n {
        let sum = summed(bytes[0], number(&bytes[1..4]), number(&bytes[4..n]));
        println!(rt; "{sum}")?;
    }
    Ok(())
}
