// One order run by the engine's three hosts and compared with plain arithmetic.
use crate::draw::{drawn, word};
use crate::line::Curve;
use crate::orders::{Kind, Mode};
use crate::plain::{carry, floor_shift, number, one_bit, positive, product};
use crate::sums::Sums;
use calls::Stored;
use shares::Disagree;
use trio::{Refused, Shared, Trio};
use worker::Answer;

// An order, what its source opens, and the seed of everything else: of l1, l2 and m of the registers, A, B and the deal
// buffer.
#[derive(Clone, Copy, Debug, PartialEq, Eq)]
pub(crate) struct Trial {
    pub(crate) kind: Kind,
    pub(crate) target: u32,
    pub(crate) source: u32,
    pub(crate) fourth: u32,
    pub(crate) x: u32,
    pub(crate) seed: u32,
}

// A job run to its end by the three hosts, and whether the deal buffer's words past the deals are as before.
#[derive(Clone, Copy)]
pub(crate) struct Ran {
    hosts: Trio,
    kept: bool,
}

// A job run on drawn lists, with so many words of B.
pub(crate) fn run(
    job: &[u32],
    table: &[u32],
    seed: u32,
    b_words: usize,
    shares: Shared,
) -> Result<Ran, Refused> {
    let a = drawn::<512>(word(seed, 4));
    let b = drawn::<512>(word(seed, 5));
    let buffer = drawn::<512>(word(seed, 6));
    let mut deals = buffer;
    let hosts = trio::run(job, table, &a, front(&b, b_words), &mut deals, shares)?;
    let written = hosts.deals as usize;
    let kept = deals
        .iter()
        .zip(&buffer)
        .skip(written)
        .all(|(now, then)| now == then);
    Ok(Ran { hosts, kept })
}

// The first n words; all where there are fewer.
pub(crate) fn front(list: &[u32], n: usize) -> &[u32] {
    list.get(..n).unwrap_or(list)
}

// Whether a host at the end of one order has spoken so many words and stored the places of these and of the deals.
fn is_at_end(host: Answer, spoken: u32, deals: u32) -> bool {
    let s = host.state;
    let due = Stored {
        a: spoken.wrapping_add(deals),
        b: spoken,
        deals,
    };
    s.order == 1 && s.turn == 0 && host.spoken == spoken && s.stored == due
}

impl Ran {
    // What a register opens on the three hosts' shares.
    pub(crate) fn opened(&self, r: u32) -> Result<i64, Disagree> {
        let s = self.hosts;
        trio_open::opened(s.masks, s.one.state, s.two.state, r as usize)
    }
}

impl Trial {
    fn mask_sum(&self, r: u32) -> u32 {
        word(word(self.seed, 1), r).wrapping_add(word(word(self.seed, 2), r))
    }

    // What a register's shares stand for.
    fn value(&self, r: u32) -> u32 {
        if r == self.source {
            self.x
        } else {
            word(word(self.seed, 3), r).wrapping_sub(self.mask_sum(r))
        }
    }

    // -1 above the last row, else the floor of Y / 4096. The one-bit curve adds a carry under the mask sum of its
    // refresh: each row's kind 9 uses 24 words of A and 12 of B before that.
    fn curve_value(&self, mode: Mode, curve: &Curve) -> u32 {
        if curve.above {
            return u32::MAX;
        }
        let below = floor_shift(curve.sum, 12);
        match mode {
            Mode::Exact => below,
            Mode::OneBit => {
                let l1 = word(word(self.seed, 4), product(curve.rows, 24));
                let l2 = word(word(self.seed, 5), product(curve.rows, 12));
                below.wrapping_add(carry(curve.sum, l1.wrapping_add(l2), 12))
            }
        }
    }

    // What the target is to open. Kind 6: the two floors that its steps add.
    fn plain_value(&self, curve: &Curve) -> u32 {
        let x = self.x;
        let k = self.fourth;
        let y = self.value(k);
        let l = self.mask_sum(self.source);
        match self.kind {
            Kind::Add => x.wrapping_add(y),
            Kind::Subtract => x.wrapping_sub(y),
            Kind::AddConstant => x.wrapping_add(k),
            Kind::TimesConstant => product(x, k),
            Kind::Product => product(x, y),
            Kind::Refresh => x,
            Kind::LargeSlack => {
                floor_shift(l.wrapping_neg(), k).wrapping_add(floor_shift(x.wrapping_add(l), k))
            }
            Kind::OneBit => one_bit(x, l, k),
            Kind::Exact => floor_shift(x, k),
            Kind::Relu => positive(x),
            Kind::Curve(mode) => self.curve_value(mode, curve),
        }
    }

    // The order on drawn shares of every register, the source's of x.
    pub(crate) fn run(&self, table: &[[u32; 2]]) -> Result<Ran, Refused> {
        let l1 = drawn(word(self.seed, 1));
        let l2 = drawn(word(self.seed, 2));
        let mut m = drawn::<16>(word(self.seed, 3));
        m[(self.source % 16) as usize] = self.x.wrapping_add(self.mask_sum(self.source));
        let job = [self.kind.number(), self.target, self.source, self.fourth];
        run(
            &job,
            table.as_flattened(),
            self.seed,
            512,
            Shared { m, l1, l2 },
        )
    }

    // Whether a register beside the target opens something else than before.
    fn others_changed(&self, ran: &Ran) -> bool {
        (0..16).any(|r| r != self.target && ran.opened(r) != Ok(number(self.value(r))))
    }

    // Whether the hosts' counts are not the kind's; each worker speaks half the words.
    fn is_miscounted(&self, ran: &Ran, rows: u32) -> bool {
        let due = self.kind.cost(rows);
        let half = due.words / 2;
        let s = ran.hosts;
        let ended = is_at_end(s.one, half, due.deals) && is_at_end(s.two, half, due.deals);
        !ran.kept || !ended || s.deals != due.deals
    }

    // The trial run and compared; one that is refused goes wrong in all. The line C holds a curve up to the last row.
    pub(crate) fn compared(&self, table: &[[u32; 2]]) -> Sums {
        let curve = Curve::new(positive(self.x), table);
        let on_line = matches!(self.kind, Kind::Curve(_)) && !curve.above;
        let (value, close, kept, counts) = match self.run(table) {
            Ok(ran) => {
                let found = ran.opened(self.target);
                (
                    found != Ok(number(self.plain_value(&curve))),
                    found.is_ok_and(|z| curve.is_close(words::word_of(z))),
                    self.others_changed(&ran),
                    self.is_miscounted(&ran, curve.rows),
                )
            }
            Err(_) => (true, false, true, true),
        };
        let line = on_line && !close;
        Sums {
            cases: 1,
            value: u32::from(value),
            on_line: u32::from(on_line),
            line: u32::from(line),
            kept: u32::from(kept),
            counts: u32::from(counts),
            first: (value || line || kept || counts).then_some(self.x),
        }
    }
}
