// The rehearsal (document 01, "House table by hand"): answers each line of standard input on standard output. How the
// input is cut into lines is proved of `text_lines::cut`, what a line is answered of `rehearsal_answer::rehearsed`;
// here bytes are read and written.
#![tactic(auto)]

use rehearsal_answer::rehearsed;
use std::io;
use std::io::Read;
use text_lines::{Line, Stop, cut};

fn answer(rt: &impl Print, line: &Line) -> io::Result<()> {
    let text = rehearsed(line.as_bytes());
    rt.write_all(text.as_bytes())
}

// Answers every line that ends in the chunk, and hands back the one that it leaves open.
fn take_in(rt: &impl Print, chunk: &[u8], begun: Line) -> io::Result<Line> {
    let mut piece = cut(chunk, 0, begun);
    while let Stop::Newline(next) = piece.stop {
        answer(rt, &piece.line)?;
        piece = cut(chunk, next, Line::new());
    }
    Ok(piece.line)
}

// The line that is left open by what is read next; nothing at the input's end.
fn read_some(rt: &impl Print, input: &mut impl Read, line: Line) -> io::Result<Option<Line>> {
    let mut buffer = [0u8; 4096];
    let n = input.read(&mut buffer)?;
    if n == 0 {
        return Ok(None);
    }
    let open = take_in(rt, &buffer[..n], line)?;
    Ok(Some(open))
}

// The turns are counted up to a number that no input uses up, since a proved loop ends.
fn read_all(rt: &impl Print, input: &mut impl Read) -> io::Result<Line> {
    let mut line = Line::new();
    for _ in 0..u64::MAX {
        let Some(open) = read_some(rt, input, line)? else {
            break;
        };
        line = open;
    }
    Ok(line)
}

// "a last line may lack its newline"
fn main(rt: HostRuntime) -> io::Result<()> {
    let last = read_all(&rt, &mut rt.stdin())?;
    if last.len > 0 {
        answer(&rt, &last)?;
    }
    Ok(())
}
