// Mask lists that anybody can work out again, for rehearsals and traces: they mask nothing.
#![tactic(auto)]

ghost use Rattle.std.specs.Prelude.{◌≡◌, ◌+◌, length};
ghost use Rattle.sample_masks.specs.Masks.{multiples};

// Word j of the list, from j = 1, is factor * (offset + j) modulo 2^32.
pub fn fill(list: &mut [u32], factor: u32, offset: u32)
    ensures { list.new ≡ multiples factor (offset + 1) (length list.old) }
{
    let mut word = words::wrapping_mul(factor, offset);
    for next in list {
        word = word.wrapping_add(factor);
        *next = word;
    }
}
