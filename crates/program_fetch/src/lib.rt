// The gate program of each kind of order, gate by gate. A walk asks for the piece of the program in which a gate stands
// (`piece_at`), and then for one gate after another of that piece (`gate_at`).
#![tactic(auto)]

use programs::Order;

mod blocks;
mod codes;
mod curve;
mod kinds;
mod pieces;

pub use pieces::{gate_at, piece_at};

// What a piece of an order's program is: all the gates of an order of kinds 0 to 9, of which a row's ReLU and a curve's
// truncation are too, or a part that a curve alone has. One `match` tells all of them apart at a gate.
#[derive(Clone, Copy)]
pub enum Part {
    // kinds 0 to 5, of one gate
    One(Order),
    Slack {
        shift: u32,
        source: u32,
        target: u32,
    },
    OneBit {
        shift: u32,
        source: u32,
        target: u32,
    },
    Exact {
        shift: u32,
        source: u32,
        target: u32,
    },
    Relu {
        source: u32,
        target: u32,
    },
    // a curve's first gate
    First,
    // what a row of the table has before its ReLU and after it
    RowStart {
        source: u32,
        row: usize,
    },
    RowEnd {
        row: usize,
    },
    // R-1's last steps
    Saturation {
        source: u32,
        target: u32,
    },
    // no gates, as of an order of no kind
    Nothing,
}

// A piece of an order's program: all of it for kinds 0 to 9, and for a curve one of its parts.
#[derive(Clone, Copy)]
pub struct Piece {
    pub part: Part,
    // the index of a gate in the piece, and the number of the piece's gates
    pub from: usize,
    pub end: usize,
    // whether it is the last piece of the program
    pub last: bool,
}
