// Short texts in arrays of a fixed size: lines that are read, lines that are printed.
ghost use Rattle.std.specs.Prelude.{◌≡◌, [], take};
ghost use Rattle.text_lines.specs.Buffers.{filled, with_byte, with_bytes};
ghost use Rattle.text_lines.specs.Answers.{held};

// At most N bytes: the first `len` of the array, and zeros behind them. A byte behind N others is left out, so that no
// step asks for room. An array and no Vec, since nothing here allocates; no invariant, since `cut` takes every `Line`.
#[derive(Clone, Copy)]
pub struct Short<const N: usize> {
    pub bytes: [u8; N],
    pub len: usize,
}

impl<const N: usize> Short<N> {
    pub fn new() -> Self
        ensures { held result ≡ filled N [] }
    {
        Short {
            bytes: [0; N],
            len: 0,
        }
    }

    pub fn push(&mut self, byte: u8)
        ensures { held self.new ≡ with_byte N (held self.old) byte }
    {
        if self.len < N {
            self.bytes[self.len] = byte;
            self.len += 1;
        }
    }

    pub fn extend_from_slice(&mut self, bytes: &[u8])
        ensures { held self.new ≡ with_bytes N (held self.old) bytes.now }
    {
        for &byte in bytes {
            self.push(byte);
        }
    }

    pub fn as_bytes(&self) -> &[u8]
        ensures { result.now ≡ take self.now.len self.now.bytes }
    {
        front(&self.bytes, self.len)
    }
}

// The first n bytes, or all where there are fewer.
pub fn front(bytes: &[u8], n: usize) -> &[u8]
    ensures { result.now ≡ take n bytes.now }
{
    &bytes[..n.min(bytes.len())]
}
