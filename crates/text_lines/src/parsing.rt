// Reading a line, from left to right: each function takes what is left of it.
ghost use Rattle.std.specs.Prelude.{◌≡◌};
ghost use Rattle.text_lines.specs.Lines.{parsed, after_space, after_sign};
ghost use Rattle.text_lines.specs.Answers.{asked, mode_number};

// How a reading is calibrated: "E" or "S", with the number that an order has for it.
#[derive(Clone, Copy, Debug, PartialEq, Eq)]
pub enum Mode {
    Exact = 0,
    OneBit = 1,
}

impl Mode {
    pub fn number(self) -> u32
        ensures { result ≡ mode_number self }
    {
        self as u32
    }
}

// What a line asks for.
#[derive(Clone, Copy, Debug, PartialEq, Eq)]
pub struct Request {
    pub mode: Mode,
    pub reading: i64,
}

// The line, without its newline; nothing of a malformed one.
pub fn parse(line: &[u8]) -> Option<Request>
    ensures { asked result ≡ parsed line.now }
{
    if line.len() > 64 {
        return None;
    }
    match line.strip_prefix(b"E ") {
        Some(rest) => read_sign(Mode::Exact, rest),
        None => read_sign(Mode::OneBit, line.strip_prefix(b"S ")?),
    }
}

fn read_sign(mode: Mode, rest: &[u8]) -> Option<Request>
    ensures { asked result ≡ after_space (mode_number mode) rest.now }
{
    match rest.strip_prefix(b"-") {
        Some(digits) => read_digits(mode, true, digits),
        None => read_digits(mode, false, rest),
    }
}

fn read_digits(mode: Mode, minus: bool, digits: &[u8]) -> Option<Request>
    ensures { asked result ≡ after_sign (mode_number mode) minus digits.now }
{
    if digits.is_empty() || digits.len() > 10 {
        return None;
    }
    let mut size: u64 = 0;
    for digit in digits {
        if !digit.is_ascii_digit() {
            return None;
        }
        size = size * 10 + u64::from(digit - b'0');
    }
    let size = size as i64;
    let reading = if minus { -size } else { size };
    Some(Request { mode, reading })
}
