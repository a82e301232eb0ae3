// "the factor is floor(65536 / n) from a table for n from 1 to 96"
ghost use Rattle.std.specs.Prelude.{◌≡◌};
ghost use Rattle.calendars.specs.Quarters.{tabled};

// At index n - 1.
const FACTORS: [u32; 96] = [
    65536, 32768, 21845, 16384, 13107, 10922, 9362, 8192, 7281, 6553, 5957, 5461, 5041, 4681, 4369,
    4096, 3855, 3640, 3449, 3276, 3120, 2978, 2849, 2730, 2621, 2520, 2427, 2340, 2259, 2184, 2114,
    2048, 1985, 1927, 1872, 1820, 1771, 1724, 1680, 1638, 1598, 1560, 1524, 1489, 1456, 1424, 1394,
    1365, 1337, 1310, 1285, 1260, 1236, 1213, 1191, 1170, 1149, 1129, 1110, 1092, 1074, 1057, 1040,
    1024, 1008, 992, 978, 963, 949, 936, 923, 910, 897, 885, 873, 862, 851, 840, 829, 819, 809,
    799, 789, 780, 771, 762, 753, 744, 736, 728, 720, 712, 704, 697, 689, 682,
];

// The factor of n counted quarters; 0 where the table has none.
pub fn factor(n: u32) -> u32
    ensures { result ≡ tabled n }
{
    if n == 0 {
        return 0;
    }
    if 96 < n {
        return 0;
    }
    FACTORS[(n - 1) as usize]
}
