// The lines that the program writes.
use std::ops::Range;
use std::{fmt, io};

// How many cases there were, how many of these went wrong, and the input of the first, which is shown where there are
// any.
#[derive(Clone, Copy, Debug, Default, PartialEq, Eq)]
pub(crate) struct Tally {
    pub(crate) cases: u32,
    pub(crate) wrong: u32,
    pub(crate) first: Option<u32>,
}

impl Tally {
    fn count(&mut self, i: u32, wrong: bool) {
        self.cases = self.cases.saturating_add(1);
        if wrong {
            self.wrong = self.wrong.saturating_add(1);
            self.first = self.first.or(Some(i));
        }
    }
}

impl fmt::Display for Tally {
    fn fmt<W: fmt::Write>(&self, f: &mut fmt::Formatter<W>) -> fmt::Result {
        write!(f, "{} cases, {} mismatches", self.cases, self.wrong)?;
        match self.first {
            Some(first) if self.wrong != 0 => write!(f, "; the first: {first}"),
            _ => Ok(()),
        }
    }
}

// The line of a group of cases that are numbered one by one.
pub(crate) fn group<F: Fn(u32) -> bool>(
    rt: &impl Print,
    name: &str,
    cases: Range<u32>,
    is_wrong: F,
) -> io::Result<()>
    requires { F.IsAlwaysCallable is_wrong }
{
    let mut tally = Tally::default();
    for i in cases {
        tally.count(i, is_wrong(i));
    }
    println!(rt; "{name}: {tally}")
}
