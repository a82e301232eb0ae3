// Many trials of one kind of order, drawn from the generator.
use crate::draw::word;
use crate::orders::Kind;
use crate::sums::Sums;
use crate::trials::Trial;

// Which readings a sweep takes.
#[derive(Clone, Copy, Debug, PartialEq, Eq)]
pub(crate) enum Readings {
    // any word
    Words,
    // -2^30 to 2^30 - 1
    Range,
    // 0, 1, 2, ..
    Counts,
    // -2^30 to 2^31 - 1
    Upward,
}

// Twelve readings that can be split, two above these, two below.
const EDGES: [u32; 16] = [
    0, 1, 2, 4294967295, 4294967294, 1073741823, 1073741822, 3221225472, 3221225473, 65535, 65536,
    4294901760, 2147483647, 1073741824, 2147483648, 3221225471,
];

// The first are edges.
fn edge_or(edges: &[u32], i: u32, otherwise: u32) -> u32 {
    edges.get(i as usize).copied().unwrap_or(otherwise)
}

impl Readings {
    fn at(self, i: u32, drawn: u32) -> u32 {
        match self {
            Readings::Words => edge_or(&EDGES, i, drawn),
            Readings::Range => edge_or(&EDGES[..12], i, (drawn / 2).wrapping_sub(1 << 30)),
            Readings::Counts => i,
            Readings::Upward => edge_or(
                &EDGES[..14],
                i,
                (drawn % 3221225472).wrapping_sub(1 << 30),
            ),
        }
    }
}

// The fourth word is one that the kind allows: any constant, 0, a shift, the mode, or a register.
fn trial_at(kind: Kind, readings: Readings, seed: u32, i: u32) -> Trial {
    let own = word(seed.wrapping_add(kind.number()), i);
    let drawn = word(own, 13);
    let fourth = match kind {
        Kind::AddConstant | Kind::TimesConstant => drawn,
        Kind::Refresh | Kind::Relu => 0,
        Kind::LargeSlack | Kind::Exact => drawn % 31 + 1,
        Kind::OneBit => drawn % 30 + 1,
        Kind::Curve(mode) => mode as u32,
        Kind::Add | Kind::Subtract | Kind::Product => drawn % 16,
    };
    Trial {
        kind,
        target: word(own, 11) % 16,
        source: word(own, 12) % 16,
        fourth,
        x: readings.at(i, word(own, 14)),
        seed: own,
    }
}

// n trials of a kind; one that takes no table is lent one all the same.
pub(crate) fn sweep(kind: Kind, readings: Readings, seed: u32, table: &[[u32; 2]], n: u32) -> Sums {
    (0..n)
        .map(|i| trial_at(kind, readings, seed, i).compared(table))
        .fold(Sums::default(), |sum, trial| sum + trial)
}
