// The curve by plain arithmetic: the scaled sum Y, and whether a value lies close enough to the line C through the
// rows.
use crate::plain::{floor, positive, product};

// What lies between two rows: the first's value, the change to the next, the counts from the one to the other, and how
// many of these the reading has come.
#[derive(Clone, Copy, Debug, Default, PartialEq, Eq)]
struct Segment {
    c: u32,
    change: u32,
    width: u32,
    come: u32,
}

impl Segment {
    // Between two neighbouring rows. A reading below 0 is to come as 0.
    fn new(x: u32, from: [u32; 2], to: [u32; 2]) -> Self {
        let [r, c] = from;
        let [next_r, next_c] = to;
        let past = positive(x.wrapping_sub(r));
        Segment {
            c,
            change: next_c.wrapping_sub(c),
            width: next_r.wrapping_sub(r),
            come: past.wrapping_sub(positive(x.wrapping_sub(next_r))),
        }
    }

    // The slope, rounded down, for each count of the way.
    fn rise(self) -> u32 {
        let slope = floor(product(self.change, 4096), self.width);
        product(slope, self.come)
    }
}

// A table's rows, 16 at most; Y, from -4095 to some 82 million; whether the reading is above the last row's count; the
// last segment that the reading has come into, or the first.
#[derive(Clone, Copy, Debug, PartialEq, Eq)]
pub(crate) struct Curve {
    pub(crate) rows: u32,
    pub(crate) sum: u32,
    pub(crate) above: bool,
    last: Segment,
}

// The count of a table's last row.
pub(crate) fn last_count(table: &[[u32; 2]]) -> u32 {
    table.last().map_or(0, |row| row[0])
}

impl Curve {
    // At a reading that is not below 0.
    pub(crate) fn new(x: u32, table: &[[u32; 2]]) -> Self {
        let mut sum = table.first().map_or(0, |row| product(row[1], 4096));
        let mut last = Segment::default();
        for (i, [from, to]) in table.array_windows::<2>().enumerate() {
            let s = Segment::new(x, *from, *to);
            sum = sum.wrapping_add(s.rise());
            if i == 0 || s.come != 0 {
                last = s;
            }
        }
        Curve {
            rows: (table.len() % 17) as u32,
            sum,
            above: last_count(table) < x,
            last,
        }
    }

    // Whether v > C - 2 and v < C + 1 for C = c + change * come / width: v + 2 - C, times width, lies between 0 and 3 *
    // width. It stays far below 2^31 in size, so that a negative one wraps to a large word. Before the first row the
    // way has not begun, and so the line is level.
    pub(crate) fn is_close(&self, v: u32) -> bool {
        let s = self.last;
        let lifted = v.wrapping_add(2);
        let over_c = product(lifted.wrapping_sub(s.c), s.width);
        let over = over_c.wrapping_sub(product(s.change, s.come));
        lifted <= 40000 && over != 0 && over < product(3, s.width)
    }
}
