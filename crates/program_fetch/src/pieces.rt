// The piece of an order's program in which a gate stands, and the gates of a piece.
ghost use Rattle.std.specs.Prelude.{◌≡◌, List};
ghost use Rattle.gates.specs.Codes.{fetched, read};
ghost use Rattle.tables.specs.Table.{Row, rows};
ghost use Rattle.program_fetch.specs.declared.Part.TheVariants.{One};
ghost use Rattle.program_fetch.specs.Pieces.{part, last_part, row_piece, last_piece, end_piece};
ghost use Rattle.program_fetch.specs.Pieces.{curve_piece, piece_at, part_gates, piece_gates};

use crate::codes::past;
use crate::curve::{first_gate, row_end_gate, row_start_gate, saturation_gate};
use crate::kinds::{exact_gate, one_bit_gate, one_gate, relu_gate, slack_gate};
use crate::{Part, Piece};
use gates::GateCode;
use programs::{
    ACC_SLOT, EXACT_GATES, Kind, ONE_BIT_GATES, Order, RELU_GATES, RES_SLOT, ROW_GATES, ROW_HEAD,
    ROW_TAIL, SATURATION_GATES, SLACK_GATES, Y_SLOT,
};

// The shift of a curve's truncation.
const CURVE_SHIFT: u32 = 12;

// A curve's truncations, which leave their value in the sum's own slot, and the refresh before the one-bit one.
const EXACT: Part = Part::Exact {
    shift: CURVE_SHIFT,
    source: ACC_SLOT,
    target: ACC_SLOT,
};

const ONE_BIT: Part = Part::OneBit {
    shift: CURVE_SHIFT,
    source: ACC_SLOT,
    target: ACC_SLOT,
};

const REFRESH: Order = Order {
    kind: Kind::Refresh as u32,
    target: ACC_SLOT,
    source: ACC_SLOT,
    fourth: 0,
};

// A piece that others follow.
fn part(what: Part, from: usize, end: usize) -> Piece
    ensures { result ≡ part what from end }
{
    Piece {
        part: what,
        from,
        end,
        last: false,
    }
}

fn last_part(what: Part, from: usize, end: usize) -> Piece
    ensures { result ≡ last_part what from end }
{
    Piece {
        part: what,
        from,
        end,
        last: true,
    }
}

// The piece in which the gate at index i of a row stands: the row's start, its ReLU, or its end.
#[tactic(auto, using(crate::proofs::Cases::row_starts, crate::proofs::Cases::row_relu, crate::proofs::Cases::row_ends))]
fn row_piece(source: u32, row: usize, i: usize) -> Piece
    ensures { result ≡ row_piece 32 source row i }
{
    if i < ROW_HEAD {
        return part(Part::RowStart { source, row }, i, ROW_HEAD);
    }
    let rest = i - ROW_HEAD;
    if rest < RELU_GATES {
        return part(
            Part::Relu {
                source: Y_SLOT,
                target: RES_SLOT,
            },
            rest,
            RELU_GATES,
        );
    }
    part(Part::RowEnd { row }, rest - RELU_GATES, ROW_TAIL)
}

// R-1's last steps, which go from the source to the target.
fn last_piece(source: u32, target: u32, i: usize) -> Piece
    ensures { result ≡ last_piece 32 source target i }
{
    last_part(Part::Saturation { source, target }, i, SATURATION_GATES)
}

// The piece in which the gate at index i behind a curve's rows stands: the exact truncation for mode 0, and else a
// refresh and the one-bit one; then R-1's last steps. The mode is the order's fourth word, which may be any.
fn end_piece(mode: u32, source: u32, target: u32, i: usize) -> Piece
    ensures { result ≡ end_piece 32 mode source target i }
{
    if mode == 0 {
        if i < EXACT_GATES {
            return part(EXACT, i, EXACT_GATES);
        }
        return last_piece(source, target, i - EXACT_GATES);
    }
    if i == 0 {
        return part(Part::One(REFRESH), 0, 1);
    }
    let rest = i - 1;
    if rest < ONE_BIT_GATES {
        return part(ONE_BIT, rest, ONE_BIT_GATES);
    }
    last_piece(source, target, rest - ONE_BIT_GATES)
}

// The piece in which the gate at index i of a curve stands: the first gate, a part of a row, or one behind the rows.
// Rows are counted by division, so that no index of any table overflows.
fn curve_piece(o: Order, count: usize, i: usize) -> Piece
    ensures { result ≡ curve_piece 32 count o i }
{
    if i == 0 {
        return part(Part::First, 0, 1);
    }
    let row = (i - 1) / ROW_GATES;
    if row < count {
        return row_piece(o.source, row, (i - 1) % ROW_GATES);
    }
    end_piece(o.fourth, o.source, o.target, i - 1 - ROW_GATES * count)
}

// The piece in which the gate at index i of an order's program stands. Nothing is asked of the order or of the table:
// a kind above 10 has no gates.
pub fn piece_at(o: Order, table: &[u32], i: usize) -> Piece
    ensures { result ≡ piece_at 32 (rows table.now) o i }
{
    let Ok(kind) = Kind::try_from(o.kind) else {
        return last_part(Part::Nothing, i, 0);
    };
    let source = o.source;
    let target = o.target;
    let shift = o.fourth;
    match kind {
        Kind::Slack => {
            let slack = Part::Slack {
                shift,
                source,
                target,
            };
            last_part(slack, i, SLACK_GATES)
        }
        Kind::OneBit => {
            let one_bit = Part::OneBit {
                shift,
                source,
                target,
            };
            last_part(one_bit, i, ONE_BIT_GATES)
        }
        Kind::Exact => {
            let exact = Part::Exact {
                shift,
                source,
                target,
            };
            last_part(exact, i, EXACT_GATES)
        }
        Kind::Relu => last_part(Part::Relu { source, target }, i, RELU_GATES),
        Kind::Curve => curve_piece(o, table.len() / 2, i),
        _ => last_part(Part::One(o), i, 1),
    }
}

// The gate of an order of kinds 0 to 5, and no gate for any other.
fn single_gate(o: Order, i: usize) -> GateCode
    ensures { (ps : List Row) → read result ≡ fetched (part_gates 32 ps (One o)) i }
{
    if o.kind < Kind::Slack as u32 {
        return one_gate(o, i);
    }
    past()
}

// The gate at an index of a piece, and no gate past its end.
#[tactic(auto, unfolding(crate::specs::Pieces::part_gates, crate::specs::Pieces::piece_gates))]
pub fn gate_at(p: Piece, table: &[u32], i: usize) -> GateCode
    ensures { read result ≡ fetched (piece_gates 32 (rows table.now) p) i }
{
    match p.part {
        Part::One(o) => single_gate(o, i),
        Part::Slack {
            shift,
            source,
            target,
        } => slack_gate(shift, source, target, i),
        Part::OneBit {
            shift,
            source,
            target,
        } => one_bit_gate(shift, source, target, i),
        Part::Exact {
            shift,
            source,
            target,
        } => exact_gate(shift, source, target, i),
        Part::Relu { source, target } => relu_gate(source, target, i),
        Part::First => first_gate(table, i),
        Part::RowStart { source, row } => row_start_gate(source, table, row, i),
        Part::RowEnd { row } => row_end_gate(table, row, i),
        Part::Saturation { source, target } => saturation_gate(source, target, table, i),
        Part::Nothing => past(),
    }
}
