// Sharing a reading among the three hosts, and opening what they hold (document 01, "Shares").
// A value x has the masks l1 and l2, and m = x + l1 + l2 modulo 2^32.
#![tactic(auto)]

ghost use Rattle.std.specs.Prelude.{◌≡◌};
ghost use Rattle.shares.specs.Sharing.{split, reconstruction};
ghost use Rattle.shares.specs.Answers.{words, sharing, opening};

// What host 0 holds of a value: both masks.
#[derive(Clone, Copy, Debug, PartialEq, Eq)]
pub struct DealerShare {
    pub l1: u32,
    pub l2: u32,
}

// What host 1 or host 2 holds: the masked value, and its own mask (l1 or l2).
#[derive(Clone, Copy, Debug, PartialEq, Eq)]
pub struct WorkerShare {
    pub m: u32,
    pub l: u32,
}

// The six words of the three hosts.
#[derive(Clone, Copy, Debug, PartialEq, Eq)]
pub struct Shares {
    pub p0: DealerShare,
    pub p1: WorkerShare,
    pub p2: WorkerShare,
}

// A reading outside -2^30 to 2^30 - 1.
#[derive(Clone, Copy, Debug, PartialEq, Eq)]
pub struct OutOfRange;

impl OutOfRange {
    pub const NUMBER: u32 = 11;
}

// Shares that disagree in l1, in l2 or in m.
#[derive(Clone, Copy, Debug, PartialEq, Eq)]
pub struct Disagree;

impl Disagree {
    pub const NUMBER: u32 = 10;
}

// The shares of a reading under two mask words ("splitting").
pub fn share(reading: i64, l1: u32, l2: u32) -> Result<Shares, OutOfRange>
    ensures { sharing result ≡ split 32 reading l1 l2 }
{
    if reading < -1073741824 {
        return Err(OutOfRange);
    }
    if reading >= 1073741824 {
        return Err(OutOfRange);
    }
    let mask = std::num::wrapping_add_u32(l1, l2);
    let m = std::num::wrapping_add_u32(words::word_of(reading), mask);
    Ok(Shares {
        p0: DealerShare { l1, l2 },
        p1: WorkerShare { m, l: l1 },
        p2: WorkerShare { m, l: l2 },
    })
}

// The value that six words stand for ("opening").
pub fn reconstruct(s: Shares) -> Result<i64, Disagree>
    ensures { opening result ≡ reconstruction 32 (words s) }
{
    if s.p0.l1 != s.p1.l {
        return Err(Disagree);
    }
    if s.p0.l2 != s.p2.l {
        return Err(Disagree);
    }
    if s.p1.m != s.p2.m {
        return Err(Disagree);
    }
    let mask = std::num::wrapping_add_u32(s.p0.l1, s.p0.l2);
    let x = std::num::wrapping_sub_u32(s.p1.m, mask);
    Ok(words::signed_reading(x))
}
