// How the turns of a workload add up.
use words::wrapping_mul;

// The sum over n turns, each of which goes by the sum so far.
pub(crate) fn summed<F: FnMut(u32) -> u32>(n: u32, mut turn: F) -> u32
    requires { F.IsAlwaysCallable turn }
{
    let mut sum = 0u32;
    for i in 0..n {
        sum = sum.wrapping_add(turn(sum.wrapping_add(i)));
    }
    sum
}

// A sum over n turns that go by their number, in which their order shows.
pub(crate) fn mixed<F: FnMut(u32) -> u32>(n: u32, mut turn: F) -> u32
    requires { F.IsAlwaysCallable turn }
{
    let mut sum = 0u32;
    for i in 0..n {
        sum = wrapping_mul(sum, 31).wrapping_add(turn(i));
    }
    sum
}
