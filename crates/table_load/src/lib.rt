// Loading a hotel's own calibration table from bytes (document 02, R-5): records of six bytes, one for each row.
#![tactic(auto)]

ghost use Rattle.std.specs.Prelude.{◌≡◌, ◌+◌, ◌*◌, true, false, MatchResult};
ghost use Rattle.std.proofs.lemmas.List.Edits.{sets};
ghost use Rattle.table_load.specs.Loading.{two_bytes, has_mark, count_of, value_of, marked, table_in};
ghost use Rattle.table_load.specs.Loading.{two_to_sixteen, loading};
ghost use Rattle.table_load.specs.Answers.{number_of, answer_of};

use tables::keeps_rules;
use word_lists::put_word;

// "Before each record stand the two bytes 195 and 90"
const MARK: [u8; 2] = [195, 90];

// The mark, r and c.
const RECORD_BYTES: usize = 6;

// The table of a text: its words, with zeros behind them, and how many there are, so that table[..len] is lent on.
// Its room is fixed, since the engine has no heap: the 32 words of 16 rows, all of which C is given.
#[derive(Clone, Copy, Debug, PartialEq, Eq)]
pub struct LoadedTable {
    pub table: [u32; 32],
    pub len: usize,
}

// Why a text holds no table, by the first condition that it breaks.
#[derive(Clone, Copy, Debug, PartialEq, Eq)]
pub enum LoadError {
    Unmarked = 13, // "record cut short or mark wrong"
    Miscounted = 14, // "fewer than 2 or more than 16 records"
    Unsound = 15, // "a row's range or rise is broken"
}

impl LoadError {
    pub fn number(self) -> u32
        ensures { result ≡ number_of self }
    {
        self as u32
    }
}

// "each in two bytes, low byte first"
fn two_bytes(low: u8, high: u8) -> u32
    ensures { result ≡ two_bytes low high }
{
    u32::from(u16::from_le_bytes([low, high]))
}

// Compares the mark of a record, then reads it: its r and c. Refused where the mark is wrong.
fn read_record(bytes: &[u8; RECORD_BYTES]) -> Result<(u32, u32), LoadError>
    ensures { MatchResult result
        (λ row. (has_mark bytes.now 0 ≡ true) × (row.0 ≡ count_of bytes.now 0) × (row.1 ≡ value_of bytes.now 0))
        (λ e. (has_mark bytes.now 0 ≡ false) × (e ≡ LoadError.Unmarked)) }
{
    let [first, second, r_low, r_high, c_low, c_high] = *bytes;
    if [first, second] == MARK {
        Ok((two_bytes(r_low, r_high), two_bytes(c_low, c_high)))
    } else {
        Err(LoadError::Unmarked)
    }
}

// Reads every record of a text: the r and c of record k become row k of the table, if that has such a row. Refused
// where a record is cut short or its mark is wrong.
fn read_records(text: &[u8], table: &mut [u32]) -> Result<(), LoadError>
    ensures { MatchResult result
        (λ _. (marked text.now ≡ true) × (table.new ≡ sets table.old 0 (table_in text.now)))
        (λ e. (marked text.now ≡ false) × (e ≡ LoadError.Unmarked)) }
{
    let (records, cut) = text.as_chunks::<RECORD_BYTES>();
    if !cut.is_empty() {
        return Err(LoadError::Unmarked);
    }
    for (k, bytes) in records.iter().enumerate() {
        let (r, c) = read_record(bytes)?;
        put_word(table, 2 * k, r);
        put_word(table, 2 * k + 1, c);
    }
    Ok(())
}

// Whether there are 2 to 16 records.
fn two_to_sixteen(n: usize) -> bool
    ensures { result ≡ two_to_sixteen n }
{
    (2..=16).contains(&n)
}

// The table that a text holds. Numbers 13, 14, 15.
pub fn load(text: &[u8]) -> Result<LoadedTable, LoadError>
    ensures { answer_of result ≡ loading text.now }
{
    let mut table = [0u32; 32];
    read_records(text, &mut table)?;
    let rows = text.len() / RECORD_BYTES;
    if !two_to_sixteen(rows) {
        return Err(LoadError::Miscounted);
    }
    let len = 2 * rows;
    if !keeps_rules(&table[..len]) {
        return Err(LoadError::Unsound);
    }
    Ok(LoadedTable { table, len })
}
