// Calibration tables (document 01, "The curve"): their rules, the slopes of their segments, and the house table.
// A table is a slice of words, two to a row: count r, then micrograms per litre c.
#![tactic(auto)]

ghost use Rattle.std.specs.Prelude.{◌≡◌, ◌↔◌, ◌+◌, ◌<◌, ℕ, All, IsTrue, length};
ghost use Rattle.tables.specs.Table.{row, row_in, row_of, row_fits, keeps_rules, slope, house};

// Whether each row's r and c are in their ranges.
fn each_fits(rows: &[[u32; 2]]) -> bool
    ensures { IsTrue result ↔ All (λ p. IsTrue (row_fits (row_in p))) rows.now }
{
    rows.iter().all(|&[r, c]| r <= 4095 && c <= 20000)
}

// Whether r rises from each row to the next.
fn counts_rise(rows: &[[u32; 2]]) -> bool
    ensures { IsTrue result
        ↔ ((k : ℕ) → k + 1 < length rows.now → (row_of rows.now k).r < (row_of rows.now (k + 1)).r) }
{
    rows.is_sorted_by(|row, next| row[0] < next[0])
}

// Whether the words are a table that keeps the rules.
pub fn keeps_rules(table: &[u32]) -> bool
    ensures { result ≡ keeps_rules table.now }
{
    let (rows, odd) = table.as_chunks::<2>();
    if !odd.is_empty() {
        return false;
    }
    if !(2..=16).contains(&rows.len()) {
        return false;
    }
    each_fits(rows) && counts_rise(rows)
}

// floor((next_c - c) * 4096 / (next_r - r)), towards minus infinity where c falls; 0 where r does not rise.
pub fn slope(r: u32, c: u32, next_r: u32, next_c: u32) -> i64
    ensures { result ≡ slope (row r c) (row next_r next_c) }
{
    if next_r <= r {
        return 0;
    }
    let width = (next_r - r) as u64;
    if next_c < c {
        // Rounded up here, so down once it is negative.
        let fall = (c - next_c) as u64 * 4096;
        let steps = (fall + (width - 1)) / width;
        -(steps as i64)
    } else {
        let rise = (next_c - c) as u64 * 4096;
        (rise / width) as i64
    }
}

// The house table's eight rows, r and c in turn.
pub const HOUSE: [u32; 16] = [
    200, 0, 456, 250, 712, 520, 1224, 1100, 1736, 1720, 2760, 3100, 3272, 3850, 3572, 4250,
];

pub fn house() -> [u32; 16]
    ensures { result ≡ house }
{
    HOUSE
}
