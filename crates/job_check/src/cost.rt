// The tally of an order's counts, from document 01's table of costs as R-4 leaves it.
ghost use Rattle.std.specs.Prelude.{◌≡◌, cond, ℕ, ◌≤◌, length};
ghost use Rattle.tables.specs.Table.{rows, keeps_rules};
ghost use Rattle.jobs.specs.CostTable.{kind_cost};
ghost use Rattle.jobs.specs.Counts.{counted};
ghost use Rattle.job_check.specs.Tally.{tallied, CurveTallied};

use jobs::Counts;
use programs::{Kind, Order};

// A tally holds the deals, the words of A and the words of B in one number, 20 bits each, so that the counts of an
// order are added at once. No job reaches 2^20 of any.
const ONE_OF_A: u64 = 1048576;

const ONE_DEAL: u64 = ONE_OF_A * ONE_OF_A;

// A block's tally; a macro, since a constant's value calls no function.
macro_rules! tally_of {
    ($block:ident) => {
        programs::$block.deals as u64 * ONE_DEAL
            + programs::$block.a as u64 * ONE_OF_A
            + programs::$block.exchanges as u64
    };
}

const PRODUCT: u64 = tally_of!(PRODUCT);

const REFRESH: u64 = tally_of!(REFRESH);

const SLACK: u64 = tally_of!(SLACK);

const ONE_BIT: u64 = tally_of!(ONE_BIT);

// A refresh, then the one-bit truncation.
const REFRESHED: u64 = tally_of!(REFRESHED);

const EXACT: u64 = tally_of!(EXACT);

// A ReLU, and a curve's row.
const ROW: u64 = tally_of!(ROW);

// R-1's last steps of a curve.
const SATURATION: u64 = tally_of!(SATURATION);

// The rows of a table that keeps its rules; without one no curve is counted.
pub(crate) fn rows_of(table: &[u32], ruled: bool) -> u64
    requires { ruled ≡ keeps_rules table.now }
    ensures { result ≡ cond ruled (length (rows table.now)) 0 }
{
    if ruled { (table.len() / 2) as u64 } else { 0 }
}

// The tallies of a curve in its two modes.
#[derive(Clone, Copy)]
pub(crate) struct CurveTallies {
    exact: u64,
    one_bit: u64,
}

// A curve: one kind 9 for each row, then a kind 8, or a kind 5 and a kind 7, and then R-1's last steps.
pub(crate) fn curve_tallies(rows: u64) -> CurveTallies
    requires { rows ≤ 16 }
    ensures { CurveTallied result rows }
{
    CurveTallies {
        exact: rows * ROW + EXACT + SATURATION,
        one_bit: rows * ROW + REFRESHED + SATURATION,
    }
}

// The tally of an order, where a curve has these on the table's rows.
pub(crate) fn order_tally(o: Order, curve: CurveTallies) -> u64
    ensures { (n : ℕ) → CurveTallied curve n → tallied result ≡ kind_cost o.kind o.fourth n }
{
    let Ok(kind) = Kind::try_from(o.kind) else {
        return 0;
    };
    let mode = o.fourth;
    match kind {
        Kind::Add | Kind::Subtract | Kind::AddConstant | Kind::TimesConstant => 0,
        Kind::Product => PRODUCT,
        Kind::Refresh => REFRESH,
        Kind::Slack => SLACK,
        Kind::OneBit => ONE_BIT,
        Kind::Exact => EXACT,
        Kind::Relu => ROW,
        Kind::Curve => {
            if mode == 0 {
                curve.exact
            } else {
                curve.one_bit
            }
        }
    }
}

// The counts that a tally stands for: at each exchange both hosts speak, and one word of B is used.
pub(crate) fn counts_of(tally: u64) -> Counts
    ensures { counted result ≡ tallied tally }
{
    let b = (tally % ONE_OF_A) as u32;
    Counts {
        deals: (tally / ONE_DEAL) as u32,
        words: 2 * b,
        a: (tally / ONE_OF_A % ONE_OF_A) as u32,
        b,
    }
}
