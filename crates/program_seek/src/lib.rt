// The place of an order's n-th product or refresh, in constant time: from the sizes of the blocks before it.
#![tactic(auto)]

ghost use Rattle.std.specs.Prelude.{◌≡◌, Some, List, [], ◌∷◌, ◌++◌, ℕ, ◌+◌, ◌*◌, ◌^◌, ◌≤◌, ◌<◌};
ghost use Rattle.gates.specs.Gates.{Gate, Mul, Refresh};
ghost use Rattle.tables.specs.Table.{rows};
ghost use Rattle.programs.specs.Blocks.{Below, after};
ghost use Rattle.programs.specs.declared.TheConstants.{ROW};
ghost use Rattle.programs.specs.Programs.{adder, sign_program, relu_program, one_bit_program};
ghost use Rattle.programs.specs.Programs.{exact_program, truncation, saturation};
ghost use Rattle.programs.specs.Orders.{curve_program, program};
ghost use Rattle.programs.specs.Seek.{gate_place, sought_from, Seeks};

use programs::{
    ADDER, ADDER_HEAD, BlockSize, DEAL, EXACT, EXACT_HEAD, GatePlace, Kind, NUMBER, Order, REFRESH,
    REFRESHED, RELU_LAST, RELU_ONE, ROUND_GATES, ROW, ROW_HEAD, SATURATION_HEAD, SATURATION_PLUS,
    SATURATION_PRODUCT, SIGN, SIGN_BIT, SIGN_NUMBER, START,
};

// What stands before the product of a block that starts with a deal and a known word.
const DEALT: BlockSize = BlockSize { gates: 2, ..DEAL };

// Before the product of the one-bit truncation: both deals, and what is known of the source.
const ONE_BIT_HEAD: BlockSize = BlockSize {
    gates: 5,
    exchanges: 0,
    a: 2,
    deals: 2,
};

// Behind a block that starts at a place.
fn after(place: GatePlace, block: BlockSize) -> GatePlace
    requires { Below (2 ^ 64) (after place block) }
    ensures { result ≡ after place block }
{
    GatePlace {
        gate: place.gate + block.gates,
        a: place.a + block.a,
        deals: place.deals + block.deals,
    }
}

// Behind so many gates that use no word of A and no deal.
fn past(place: GatePlace, gates: usize) -> GatePlace
    requires { place.gate + gates < 2 ^ 64 }
    ensures { result ≡ gate_place (place.gate + gates) place.a place.deals }
{
    GatePlace {
        gate: place.gate + gates,
        ..place
    }
}

// The adder's n-th product, whatever gates are behind it. After the first one, the even ones end a round each and the
// odd ones stand three gates before; the first one is with a known value, and has no deal.
fn adder_place(n: usize, from: GatePlace) -> GatePlace
    requires { (n < 10) × Below (2 ^ 62) from }
    ensures { (x : ℕ) (gs : List Gate) → Some result ≡ sought_from 32 (adder 32 x ++ gs) n from }
{
    if n == 0 {
        return after(from, DEALT);
    }
    after(
        from,
        BlockSize {
            gates: ADDER_HEAD - 1 + ROUND_GATES * n / 2,
            exchanges: n,
            a: 2 * n,
            deals: n,
        },
    )
}

// A program whose first gate is its one exchange.
fn at_once(n: usize, from: GatePlace) -> Option<GatePlace>
    ensures product { (d x y : ℕ) → result ≡ sought_from 32 (Mul d x y ∷ []) n from }
    ensures refresh { (d x : ℕ) → result ≡ sought_from 32 (Refresh d x ∷ []) n from }
{
    if n == 0 { Some(from) } else { None }
}

// The sign's n-th product, whatever gates are behind it: the adder's, and that of the sign bit made a number.
fn sign_place(n: usize, from: GatePlace) -> GatePlace
    requires { (n < 11) × Below (2 ^ 62) from }
    ensures { (x : ℕ) (gs : List Gate) → Some result ≡ sought_from 32 (sign_program 32 x ++ gs) n from }
{
    if n < ADDER.exchanges {
        return adder_place(n, from);
    }
    after(past(after(from, ADDER), SIGN_NUMBER - SIGN_BIT), DEALT)
}

// The sign, and the product that ends the program.
fn relu_place(n: usize, from: GatePlace) -> Option<GatePlace>
    requires { Below (2 ^ 61) from }
    ensures { (x d : ℕ) → result ≡ sought_from 32 (relu_program 32 x d) n from }
{
    if n < SIGN.exchanges {
        return Some(sign_place(n, from));
    }
    at_once(
        n - SIGN.exchanges,
        past(after(from, SIGN), RELU_LAST - RELU_ONE),
    )
}

// Two gates, the sign, and behind it a product between two gates.
fn saturation_place(n: usize, from: GatePlace) -> Option<GatePlace>
    requires { Below (2 ^ 61) from }
    ensures { (r x d : ℕ) → result ≡ sought_from 32 (saturation 32 r x d) n from }
{
    let sign = past(from, SATURATION_HEAD);
    if n < SIGN.exchanges {
        return Some(sign_place(n, sign));
    }
    at_once(
        n - SIGN.exchanges,
        past(after(sign, SIGN), SATURATION_PRODUCT - SATURATION_PLUS),
    )
}

// A head with a deal, the adder, a gate, a bit made a number, two gates, and another one.
fn exact_place(n: usize, from: GatePlace) -> Option<GatePlace>
    requires { Below (2 ^ 61) from }
    ensures { (k x d : ℕ) → result ≡ sought_from 32 (exact_program 32 k x d) n from }
{
    let adder = past(after(from, DEAL), EXACT_HEAD - 1);
    if n < ADDER.exchanges {
        return Some(adder_place(n, adder));
    }
    let low = past(after(adder, ADDER), 1);
    match n - ADDER.exchanges {
        0 => Some(after(low, DEALT)),
        1 => Some(after(past(after(low, NUMBER), 2), DEALT)),
        _ => None,
    }
}

// The product follows both deals and what is known of the source.
fn one_bit_place(n: usize, from: GatePlace) -> Option<GatePlace>
    requires { Below (2 ^ 62) from }
    ensures { (k x d : ℕ) → result ≡ sought_from 32 (one_bit_program 32 k x d) n from }
{
    if n == 0 {
        Some(after(from, ONE_BIT_HEAD))
    } else {
        None
    }
}

// A refresh, and then the one-bit truncation.
fn refreshed_place(n: usize, from: GatePlace) -> Option<GatePlace>
    requires { Below (2 ^ 61) from }
    ensures { result ≡ sought_from 32 (Refresh 22 22 ∷ one_bit_program 32 12 22 22) n from }
{
    if n == 0 {
        return Some(from);
    }
    one_bit_place(n - 1, after(from, REFRESH))
}

// Behind a curve's rows: the truncation of its mode, which is the order's fourth word and may be any, and then R-1's
// last steps.
fn end_place(mode: u32, n: usize, from: GatePlace) -> Option<GatePlace>
    requires { Below (2 ^ 60) from }
    ensures { (r x d : ℕ) →
        result ≡ sought_from 32 (truncation 32 mode ++ saturation 32 r x d) n from }
{
    if mode == 0 {
        if n < EXACT.exchanges {
            return exact_place(n, from);
        }
        return saturation_place(n - EXACT.exchanges, after(from, EXACT));
    }
    if n < REFRESHED.exchanges {
        return refreshed_place(n, from);
    }
    saturation_place(n - REFRESHED.exchanges, after(from, REFRESHED))
}

// Behind a curve's first gate and so many rows.
fn behind_rows(count: usize) -> GatePlace
    requires { count < 2 ^ 32 }
    ensures { result ≡ gate_place (ROW.gates * count + 1) (ROW.a * count) (ROW.deals * count) }
{
    GatePlace {
        gate: ROW.gates * count + 1,
        a: ROW.a * count,
        deals: ROW.deals * count,
    }
}

// One gate stands before the rows, and one in each row before its ReLU, whose exchanges are the row's.
fn curve_place(mode: u32, table: &[u32], n: u32) -> Option<GatePlace>
    ensures { (x d : ℕ) →
        result ≡ sought_from 32 (curve_program 32 x d (rows table.now) mode) n START }
{
    let n = n as usize;
    let count = table.len() / 2;
    let row = n / ROW.exchanges;
    if row < count {
        return relu_place(n % ROW.exchanges, past(behind_rows(row), ROW_HEAD));
    }
    end_place(mode, n - ROW.exchanges * count, behind_rows(count))
}

// A turn is a u32, so that a curve's place fits its type whatever the table's length.
pub fn seek(o: Order, table: &[u32], turn: u32) -> Option<GatePlace>
    ensures { Seeks 32 (program 32 (rows table.now) o) turn result }
{
    let Ok(kind) = Kind::try_from(o.kind) else {
        return None;
    };
    let n = turn as usize;
    match kind {
        Kind::Product | Kind::Refresh => at_once(n, START),
        Kind::OneBit => one_bit_place(n, START),
        Kind::Exact => exact_place(n, START),
        Kind::Relu => relu_place(n, START),
        Kind::Curve => curve_place(o.fourth, table, turn),
        Kind::Add | Kind::Subtract | Kind::AddConstant | Kind::TimesConstant | Kind::Slack => None,
    }
}
