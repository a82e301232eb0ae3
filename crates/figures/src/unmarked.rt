// The cases of "House table by hand" that document 01 does not mark, the limits of splitting, and shares that disagree.
use crate::trials::run;
use shares::{DealerShare, Disagree, OutOfRange, Shares, WorkerShare};
use trio::Shared;

// Register 0, and zeros behind it.
fn registers(word: u32) -> [u32; 16] {
    let mut lane = [0; 16];
    lane[0] = word;
    lane
}

const SLACK_MASKS: [u32; 4] = [3735928559, 2147483648, 1, 0];

// Kind 6 with k = 1 on x = 0, under masks that add up to 2^31, in register 0.
pub(crate) fn is_slack_wrong(i: u32) -> bool {
    let mask = SLACK_MASKS[i as usize % 4];
    let m = registers(2147483648);
    let l1 = registers(mask);
    let l2 = registers(2147483648u32.wrapping_sub(mask));
    let ran = run(&[6, 0, 0, 1], &[], 51, 0, Shared { m, l1, l2 });
    !ran.is_ok_and(|ran| ran.opened(0) == Ok(-2147483648))
}

// Four readings that can be split, and four that are out of range.
const SPLIT: [i64; 8] = [
    1073741823,
    -1073741824,
    -1,
    0,
    -1073741825,
    1073741824,
    -2147483648,
    2147483647,
];

// The four open again when they are split; the others are refused: number 11.
pub(crate) fn is_split_wrong(i: u32) -> bool {
    let reading = SPLIT[i as usize % 8];
    match shares::share(reading, 2654435769, 2246822519) {
        Ok(s) => 3 < i || shares::reconstruct(s) != Ok(reading),
        Err(OutOfRange) => i < 4 || OutOfRange::NUMBER != 11,
    }
}

// Number 10: shares of 7 that differ in l1, in l2, in m, in both masks of host 0, or have the masks the wrong way
// round.
pub(crate) fn is_opened(i: u32) -> bool {
    let mut p0 = DealerShare { l1: 5, l2: 8 };
    let mut p1 = WorkerShare { m: 20, l: 5 };
    let mut p2 = WorkerShare { m: 20, l: 8 };
    match i {
        0 => p1.l = 6,
        1 => p2.l = 2147483656,
        2 => p2.m = 21,
        3 => p0 = DealerShare { l1: 6, l2: 7 },
        _ => {
            p1.l = 8;
            p2.l = 5;
        }
    }
    shares::reconstruct(Shares { p0, p1, p2 }) != Err(Disagree) || Disagree::NUMBER != 10
}
