// What a sweep of trials counted, and the lines that say so.
use crate::output::Tally;
use std::ops::Add;
use std::{fmt, io};

// The trials, and of these the ones with a wrong value, those of a curve up to the last row, of these the ones too far
// from its line, those with another register changed and with wrong counts or a changed rest of the deal buffer; the
// reading of the first that went wrong.
#[derive(Clone, Copy, Debug, Default, PartialEq, Eq)]
pub(crate) struct Sums {
    pub(crate) cases: u32,
    pub(crate) value: u32,
    pub(crate) on_line: u32,
    pub(crate) line: u32,
    pub(crate) kept: u32,
    pub(crate) counts: u32,
    pub(crate) first: Option<u32>,
}

// Both together.
impl Add for Sums {
    type Output = Self;

    fn add(self, more: Self) -> Self {
        Sums {
            cases: self.cases.wrapping_add(more.cases),
            value: self.value.wrapping_add(more.value),
            on_line: self.on_line.wrapping_add(more.on_line),
            line: self.line.wrapping_add(more.line),
            kept: self.kept.wrapping_add(more.kept),
            counts: self.counts.wrapping_add(more.counts),
            first: self.first.or(more.first),
        }
    }
}

impl Sums {
    // So many of so many cases went wrong.
    fn tally(&self, cases: u32, wrong: u32) -> Tally {
        Tally {
            cases,
            wrong,
            first: self.first,
        }
    }

    pub(crate) fn values(&self) -> Tally {
        self.tally(self.cases, self.value)
    }
}

// The lines of a curve's values.
pub(crate) fn print_values<N: fmt::Display>(rt: &impl Print, name: &N, t: Sums) -> io::Result<()> {
    println!(rt; "{name}: {}", t.values())?;
    println!(rt;
        "{name}, up to the last row above C - 2 and below C + 1: {}",
        t.tally(t.on_line, t.line)
    )
}

pub(crate) fn print_rest<N: fmt::Display>(rt: &impl Print, name: &N, t: Sums) -> io::Result<()> {
    println!(rt;
        "{name}, the fifteen other registers: {}",
        t.tally(t.cases, t.kept)
    )?;
    println!(rt;
        "{name}, deals, words spoken, rest of the deal buffer: {}",
        t.tally(t.cases, t.counts)
    )
}
