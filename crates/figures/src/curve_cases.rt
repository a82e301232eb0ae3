// The curve on the house table and on others: what it opens, how close to the line, and that it opens -1 above the last
// row.
use crate::draw::table;
use crate::line::last_count;
use crate::orders::{Kind, Mode};
use crate::sums::{Sums, print_rest, print_values};
use crate::sweeps::{Readings, sweep};
use crate::trials::Trial;
use std::io;

// Four tables of two rows, sixteen rows that fall all the way, with slopes that are no whole numbers, and sixteen
// neighbouring counts, from one end of the range to the other and back.
const TABLES: [&[[u32; 2]]; 6] = [
    &[[0, 20000], [4095, 0]],
    &[[0, 20000], [1, 0]],
    &[[4094, 0], [4095, 20000]],
    &[[17, 7], [3000, 7]],
    &[
        [0, 20000],
        [273, 18667],
        [546, 17334],
        [819, 16001],
        [1092, 14668],
        [1365, 13335],
        [1638, 12002],
        [1911, 10669],
        [2184, 9336],
        [2457, 8003],
        [2730, 6670],
        [3003, 5337],
        [3276, 4004],
        [3549, 2671],
        [3822, 1338],
        [4095, 5],
    ],
    &[
        [1000, 0],
        [1001, 20000],
        [1002, 0],
        [1003, 20000],
        [1004, 0],
        [1005, 20000],
        [1006, 0],
        [1007, 20000],
        [1008, 0],
        [1009, 20000],
        [1010, 0],
        [1011, 20000],
        [1012, 0],
        [1013, 20000],
        [1014, 0],
        [1015, 20000],
    ],
];

// Of the fixed and the drawn tables.
const COUNT: u32 = 21;

// The house table, row by row.
pub(crate) fn house_rows() -> [[u32; 2]; 8] {
    let mut rows = [[0; 2]; 8];
    rows.as_flattened_mut().copy_from_slice(&tables::HOUSE);
    rows
}

// The rows of a drawn table, of which it has 2 to 16: narrow ones, or wide ones that may reach up to 4094.
fn drawn_rows(i: u32) -> [[u32; 2]; 16] {
    let most = match i % 3 {
        0 => 4,
        _ => 3895 / (i % 15 + 1),
    };
    table(i.wrapping_add(100), most)
}

// On one of the tables: six fixed ones, fifteen drawn ones, and then the house table.
fn on_table<T: Drop, F: FnOnce(&[[u32; 2]]) -> T>(number: u32, then: F) -> T
    requires { F.IsAlwaysCallable then }
{
    match number {
        0..6 => then(TABLES[number as usize]),
        6..COUNT => {
            let i = number - 6;
            then(&drawn_rows(i)[..(i % 15 + 2) as usize])
        }
        _ => then(&house_rows()),
    }
}

// Tables of 2 to 16 rows, those that fall among them.
fn on_tables(kind: Kind, readings: Readings, n: u32) -> Sums {
    (0..COUNT)
        .map(|i| on_table(i, |rows| sweep(kind, readings, i.wrapping_add(31), rows, n)))
        .fold(Sums::default(), |sum, table| sum + table)
}

// The lines of every count and of readings from -2^30 to 2^31 - 1.
fn print_curve(
    rt: &impl Print,
    mode: Mode,
    tables: &str,
    counts: Sums,
    range: Sums,
) -> io::Result<()> {
    let name = format_args!("curve {mode}, {tables}");
    print_values(rt, &format_args!("{name}, counts 0 to 4095"), counts)?;
    print_values(
        rt,
        &format_args!("{name}, readings from -2^30 to 2^31 - 1"),
        range,
    )?;
    print_rest(rt, &format_args!("{name}, both"), counts + range)
}

pub(crate) fn house(rt: &impl Print, mode: Mode) -> io::Result<()> {
    let kind = Kind::Curve(mode);
    let rows = house_rows();
    let counts = sweep(kind, Readings::Counts, 21, &rows, 4096);
    let range = sweep(kind, Readings::Upward, 22, &rows, 1000);
    print_curve(rt, mode, "house table", counts, range)
}

pub(crate) fn others(rt: &impl Print, mode: Mode) -> io::Result<()> {
    let kind = Kind::Curve(mode);
    let counts = on_tables(kind, Readings::Counts, 4096);
    let range = on_tables(kind, Readings::Upward, 300);
    print_curve(rt, mode, "21 tables of 2 to 16 rows", counts, range)
}

// A reading at or past a table's last row: by so many counts, or one that is past every table's.
#[derive(Clone, Copy, Debug, PartialEq, Eq)]
enum Past {
    By(u32),
    All(u32),
}

// The last four cannot be split.
const PAST: [Past; 12] = [
    Past::By(0),
    Past::By(1),
    Past::By(2),
    Past::By(100),
    Past::All(4096),
    Past::All(65536),
    Past::All(16777216),
    Past::All(1073741823),
    Past::All(1073741824),
    Past::All(1500000000),
    Past::All(2147483646),
    Past::All(2147483647),
];

// Case 0 of a table is the last row's count, which is to open its value; the eleven readings above it are to open -1.
// Each case has masks of its own.
fn is_wrong_at_end(rows: &[[u32; 2]], mode: Mode, case: u32, seed: u32) -> bool {
    let x = match PAST[case as usize % 12] {
        Past::By(counts) => last_count(rows).wrapping_add(counts),
        Past::All(reading) => reading,
    };
    let trial = Trial {
        kind: Kind::Curve(mode),
        target: 3,
        source: 5,
        fourth: mode as u32,
        x,
        seed,
    };
    if case == 0 {
        let at_last = trial.compared(rows);
        return at_last.value != 0 || at_last.line != 0;
    }
    !trial.run(rows).is_ok_and(|ran| ran.opened(3) == Ok(-1))
}

// On the six fixed tables, the fifteen drawn ones and the house table: twelve cases in each mode.
pub(crate) fn is_wrong_end(i: u32) -> bool {
    let mode = [Mode::Exact, Mode::OneBit][(i / 12 % 2) as usize];
    on_table(
        i / 24,
        |rows| is_wrong_at_end(rows, mode, i % 12, i.wrapping_add(4100)),
    )
}
