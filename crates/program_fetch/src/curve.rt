// The parts of a curve's program beside the ReLUs and the truncation: its first gate, what each row has before and
// after its ReLU, and R-1's last steps.
ghost use Rattle.std.specs.Prelude.{◌≡◌, ◌*◌, ◌%◌, ◌^◌, ◌∷◌, pos, slice_index_or};
ghost use Rattle.gates.specs.Codes.{fetched, read};
ghost use Rattle.tables.specs.Table.{rows, row_at, slopes};
ghost use Rattle.curves.specs.Curve.{last_count};
ghost use Rattle.programs.specs.Programs.{saturation};
ghost use Rattle.program_fetch.specs.Pieces.{change, first_gates, row_start, row_end};

use crate::blocks::sign_gate;
use crate::codes::{on_slots, past, with_constant};
use gates::{GateCode, Op};
use programs::{
    ACC_SLOT, RES_SLOT, SATURATION_HEAD, SATURATION_LAST, SATURATION_PLUS, SATURATION_PRODUCT,
    T_SLOT, Y_SLOT,
};
use words::rings::{Arithmetic, Numbers};

// 4096 times the first row's value, with which the sum starts.
fn first_term(table: &[u32]) -> u32
    ensures { result ≡ 4096 * (row_at (rows table.now) 0).c % 2 ^ 32 }
{
    if table.len() < 2 {
        return 0;
    }
    Numbers::times(4096, table[1])
}

// The slope of the segment after a row, and 0 after the last one.
fn slope_after(table: &[u32], row: usize) -> i64
    ensures { result ≡ slice_index_or (slopes (rows table.now)) row (pos 0) }
{
    let count = table.len() / 2;
    if count <= row {
        return 0;
    }
    if count - row < 2 {
        return 0;
    }
    let at = 2 * row;
    tables::slope(table[at], table[at + 1], table[at + 2], table[at + 3])
}

// The slope of the segment before a row, and 0 before the first one.
fn slope_before(table: &[u32], row: usize) -> i64
    ensures { result ≡ slice_index_or (pos 0 ∷ slopes (rows table.now)) row (pos 0) }
{
    match row {
        0 => 0,
        _ => slope_after(table, row - 1),
    }
}

// The difference is taken of words, which asks for no bound on the slopes of a table that breaks the rules.
fn slope_change(table: &[u32], row: usize) -> u32
    ensures { result ≡ change 32 (rows table.now) row }
{
    let after = words::word_of(slope_after(table, row));
    let before = words::word_of(slope_before(table, row));
    Numbers::minus(after, before)
}

// The sum starts with 4096 times the first row's value.
pub(crate) fn first_gate(table: &[u32], i: usize) -> GateCode
    ensures { read result ≡ fetched (first_gates 32 (rows table.now)) i }
{
    match i {
        0 => with_constant(Op::Const, ACC_SLOT, 0, first_term(table)),
        _ => past(),
    }
}

// A row's count, and 0 past the last row.
fn row_count(table: &[u32], row: usize) -> u32
    ensures { result ≡ (row_at (rows table.now) row).r }
{
    if row < table.len() / 2 {
        table[2 * row]
    } else {
        0
    }
}

// x - r, of which the ReLU is taken.
pub(crate) fn row_start_gate(x: u32, table: &[u32], row: usize, i: usize) -> GateCode
    ensures { read result ≡ fetched (row_start 32 (rows table.now) row x) i }
{
    match i {
        0 => with_constant(
            Op::Plus,
            Y_SLOT,
            x,
            Numbers::negative(row_count(table, row)),
        ),
        _ => past(),
    }
}

// The ReLU times the change of slope is added to the sum.
pub(crate) fn row_end_gate(table: &[u32], row: usize, i: usize) -> GateCode
    ensures { read result ≡ fetched (row_end 32 (rows table.now) row) i }
{
    match i {
        0 => with_constant(Op::Scale, RES_SLOT, RES_SLOT, slope_change(table, row)),
        1 => on_slots(Op::Add, ACC_SLOT, ACC_SLOT, RES_SLOT),
        _ => past(),
    }
}

// The last row's count.
fn last_count(table: &[u32]) -> u32
    ensures { result ≡ last_count (rows table.now) }
{
    let count = table.len() / 2;
    match count {
        0 => 0,
        _ => row_count(table, count - 1),
    }
}

// R-1: the sign of (last r - x) made a number a, which stays in slot t; the product of a with the value plus 1 is
// subtracted from the value.
pub(crate) fn saturation_gate(x: u32, d: u32, table: &[u32], i: usize) -> GateCode
    ensures { read result ≡ fetched (saturation 32 (last_count (rows table.now)) x d) i }
{
    match i {
        0 => with_constant(Op::Const, Y_SLOT, 0, last_count(table)),
        1 => on_slots(Op::Sub, Y_SLOT, Y_SLOT, x),
        SATURATION_HEAD..SATURATION_PLUS => sign_gate(Y_SLOT, i - SATURATION_HEAD),
        SATURATION_PLUS => with_constant(Op::Plus, RES_SLOT, ACC_SLOT, 1),
        SATURATION_PRODUCT => on_slots(Op::Mul, RES_SLOT, T_SLOT, RES_SLOT),
        SATURATION_LAST => on_slots(Op::Sub, d, ACC_SLOT, RES_SLOT),
        _ => past(),
    }
}
