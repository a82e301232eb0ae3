// The lines that the rehearsal program prints (document 01, "House table by hand"), as short texts. No line is longer
// than 66 bytes.
#![tactic(auto)]

ghost use Rattle.std.specs.Prelude.{◌≡◌, [], ◌∷◌};
ghost use Rattle.text_lines.specs.Buffers.{filled, with_bytes};
ghost use Rattle.text_lines.specs.Answers.{held};
ghost use Rattle.text_prints.specs.Printed.{letter, shown, signed_shown, answered, refused};

use text_lines::Short;

pub type Text = Short<80>;

// The mode stays a number: what is printed is promised of every number, and `text_lines::Mode` has two.
pub fn answer_text(mode: u32, reading: i64, value: i64, deals: u32, words: u32) -> Text
    ensures { held result ≡ filled 80 (answered mode reading value deals words) }
{
    let mut line = Text::new();
    line.push(letter_of(mode));
    put_column(&mut line, reading);
    put_column(&mut line, value);
    put_column(&mut line, i64::from(deals));
    put_column(&mut line, i64::from(words));
    line.push(b'\n');
    line
}

pub fn refusal_text(number: u32) -> Text
    ensures { held result ≡ filled 80 (refused number) }
{
    let mut refusal = Text::new();
    refusal.extend_from_slice(b"refused ");
    put_number(&mut refusal, u64::from(number));
    refusal.push(b'\n');
    refusal
}

fn letter_of(mode: u32) -> u8
    ensures { result ≡ letter mode }
{
    if mode == 0 { b'E' } else { b'S' }
}

// Digits are put by hand: these texts can't fail, while only an Ok of `write!` says what was written.
fn put_number(text: &mut Text, n: u64)
    ensures { held text.new ≡ with_bytes 80 (held text.old) (shown n) }
{
    if n >= 10 {
        put_number(text, n / 10);
    }
    text.push(b'0' + (n % 10) as u8);
}

// A space and a number.
fn put_column(text: &mut Text, z: i64)
    ensures { held text.new ≡ with_bytes 80 (held text.old) (32 ∷ signed_shown z) }
{
    text.push(b' ');
    if z < 0 {
        text.push(b'-');
    }
    put_number(text, z.unsigned_abs());
}
