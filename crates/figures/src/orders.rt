// The kinds of orders (document 01, "Orders"), and what one costs: of this program's own, which the engine is held
// against.
use std::fmt;

// How a curve shifts its sum down at the end.
#[derive(Clone, Copy, Debug, PartialEq, Eq)]
pub(crate) enum Mode {
    Exact = 0,
    OneBit = 1,
}

impl fmt::Display for Mode {
    fn fmt<W: fmt::Write>(&self, f: &mut fmt::Formatter<W>) -> fmt::Result {
        f.write_str(match self {
            Mode::Exact => "exact",
            Mode::OneBit => "one-bit",
        })
    }
}

#[derive(Clone, Copy, Debug, PartialEq, Eq)]
pub(crate) enum Kind {
    Add,
    Subtract,
    AddConstant,
    TimesConstant,
    Product,
    Refresh,
    LargeSlack,
    OneBit,
    Exact,
    Relu,
    Curve(Mode),
}

// Deals, and words spoken by both hosts.
#[derive(Clone, Copy, Debug, PartialEq, Eq)]
pub(crate) struct Cost {
    pub(crate) deals: u32,
    pub(crate) words: u32,
}

impl Kind {
    // The kinds 0 to 9.
    pub(crate) const BELOW_CURVE: [Kind; 10] = [
        Kind::Add,
        Kind::Subtract,
        Kind::AddConstant,
        Kind::TimesConstant,
        Kind::Product,
        Kind::Refresh,
        Kind::LargeSlack,
        Kind::OneBit,
        Kind::Exact,
        Kind::Relu,
    ];

    pub(crate) fn number(self) -> u32 {
        match self {
            Kind::Add => 0,
            Kind::Subtract => 1,
            Kind::AddConstant => 2,
            Kind::TimesConstant => 3,
            Kind::Product => 4,
            Kind::Refresh => 5,
            Kind::LargeSlack => 6,
            Kind::OneBit => 7,
            Kind::Exact => 8,
            Kind::Relu => 9,
            Kind::Curve(_) => 10,
        }
    }

    // Document 01's table of costs, as R-4 leaves it, on a table of so many rows. A curve has a kind 9 for each row;
    // then the exact one has a kind 8, the one-bit one the kinds 5 and 7, and each a sign made a number and a product,
    // which cost what kind 9 does.
    pub(crate) fn cost(self, rows: u32) -> Cost {
        let relus = rows.wrapping_add(1);
        let (deals, words) = match self {
            Kind::Add | Kind::Subtract | Kind::AddConstant | Kind::TimesConstant => (0, 0),
            Kind::Product => (1, 2),
            Kind::Refresh => (0, 2),
            Kind::LargeSlack => (1, 0),
            Kind::OneBit => (2, 2),
            Kind::Exact => (13, 24),
            Kind::Relu => (12, 24),
            Kind::Curve(Mode::Exact) => (
                relus.wrapping_mul(12).wrapping_add(13),
                relus.wrapping_mul(24).wrapping_add(24),
            ),
            Kind::Curve(Mode::OneBit) => (
                relus.wrapping_mul(12).wrapping_add(2),
                relus.wrapping_mul(24).wrapping_add(4),
            ),
        };
        Cost { deals, words }
    }
}
