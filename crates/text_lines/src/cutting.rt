// The input, cut into lines as its chunks come.
ghost use Rattle.std.specs.Prelude.{◌≡◌, drop};
ghost use Rattle.text_lines.specs.Input.{cut_from};
ghost use Rattle.text_lines.specs.Answers.{held, piece};

use crate::Short;

// A line as far as it is read. The 65th byte is the last to be kept: a line over 64 bytes is answered alike whatever
// else it holds.
pub type Line = Short<65>;

// Where a cut stopped: behind the newline that ended the line, which is where the next one begins; or, the line left
// open, where the chunk ends, or at the place asked for where that lies behind the end.
#[derive(Clone, Copy)]
pub enum Stop {
    Newline(usize),
    ChunkEnd(usize),
}

// What a cut gives: the line so far, and where the cut stopped.
#[derive(Clone, Copy)]
pub struct Piece {
    pub line: Line,
    pub stop: Stop,
}

// The line that goes on, or begins, at a place of the chunk, behind what was read of it before.
pub fn cut(chunk: &[u8], at: usize, begun: Line) -> Piece
    ensures { piece result ≡ cut_from at (drop at chunk.now) (held begun) }
{
    let mut line = begun;
    // a range and no `enumerate().skip(at)`: what is handed back, and what the contract speaks of, are places
    for i in at..chunk.len() {
        let byte = chunk[i];
        if byte == b'\n' {
            return Piece {
                line,
                stop: Stop::Newline(i + 1),
            };
        }
        line.push(byte);
    }
    Piece {
        line,
        stop: Stop::ChunkEnd(at.max(chunk.len())),
    }
}
