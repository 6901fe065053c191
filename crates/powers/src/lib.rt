// The powers of the number of segments K, row by row (document 01, "Two-level heap (000, section 3)"), stored without the zeros behind each row
// (document 02, paper 4).
#![tactic(auto)]

ghost use Rattle.std.specs.Prelude.{◌≡◌, ◌≤◌, T, length};
ghost use Rattle.powers.specs.Powers.{power_row};
ghost use Rattle.powers.specs.Stored.{padded, non_zero, rows_stand};

// The row of K = segments: the powers of K as far as the heap uses them, then zeros; all zeros where K is not 2 to 64.
// A constant is copied to the stack where it is read, so each of the two is read once and the row taken from there.
pub fn row(segments: u32) -> [u32; 21]
    ensures { result ≡ power_row segments }
{
    match segments {
        2..=64 => {
            let table = POWERS;
            let starts = STARTS;
            stored(&table, &starts, segments)
        }
        _ => [0; 21],
    }
}

// The row of K = segments, from where it begins in the table to where the next one does. The rule of the whole table is asked for, so that it is
// computed once, where `row` hands in the constants. That no number is 0 is asked for beside it: no row needs that, a small table does.
#[tactic(auto, using(crate::proofs::Table::row_in))]
fn stored(table: &[u32], starts: &[u16; 64], segments: u32) -> [u32; 21]
    requires no_zero { T (non_zero table.now) }
    requires rows_stand { T (rows_stand table.now starts.now 2 63) }
    requires le_segments { 2 ≤ segments }
    requires segments_bound { segments ≤ 64 }
    ensures { result ≡ power_row segments }
{
    let at = segments as usize - 2;
    let first = starts[at] as usize;
    let last = starts[at + 1] as usize;
    with_zeros(&table[first..last])
}

// The words of a slice, and zeros behind them, as an array. Each word is joined to the zero at its place: a plain copy is compiled to a call of
// `memcpy`, and of the C library the archive needs `memset` alone.
fn with_zeros(words: &[u32]) -> [u32; 21]
    requires { length words.now ≤ 21 }
    ensures { result ≡ padded words.now }
{
    let mut row = [0; 21];
    for (i, word) in words.iter().enumerate() {
        row[i] |= *word;
    }
    row
}

// Where the row of each K = 2 to 64 begins in `POWERS`; the last number is the end of the last row.
const STARTS: [u16; 64] = [
    0, 21, 35, 46, 56, 65, 74, 82, 90, 98, 105, 112, 119, 126, 133, 139, 145, 151, 157, 163, 169,
    175, 181, 187, 193, 199, 205, 211, 217, 223, 229, 234, 239, 244, 249, 254, 259, 264, 269, 274,
    279, 284, 289, 294, 299, 304, 309, 314, 319, 324, 329, 334, 339, 344, 349, 354, 359, 364, 369,
    374, 379, 384, 389, 394,
];

// The rows of K = 2 to 64 one after the other, each without the zeros behind it.
const POWERS: [u32; 394] = [
    1, 2, 4, 8, 16, 32, 64, 128, 256, 512, 1024, 2048, 4096, 8192, 16384, 32768, 65536, 131072,
    262144, 524288, 1048576, 1, 3, 9, 27, 81, 243, 729, 2187, 6561, 19683, 59049, 177147, 531441,
    1594323, 1, 4, 16, 64, 256, 1024, 4096, 16384, 65536, 262144, 1048576, 1, 5, 25, 125, 625,
    3125, 15625, 78125, 390625, 1953125, 1, 6, 36, 216, 1296, 7776, 46656, 279936, 1679616, 1, 7,
    49, 343, 2401, 16807, 117649, 823543, 5764801, 1, 8, 64, 512, 4096, 32768, 262144, 2097152, 1,
    9, 81, 729, 6561, 59049, 531441, 4782969, 1, 10, 100, 1000, 10000, 100000, 1000000, 10000000,
    1, 11, 121, 1331, 14641, 161051, 1771561, 1, 12, 144, 1728, 20736, 248832, 2985984, 1, 13, 169,
    2197, 28561, 371293, 4826809, 1, 14, 196, 2744, 38416, 537824, 7529536, 1, 15, 225, 3375,
    50625, 759375, 11390625, 1, 16, 256, 4096, 65536, 1048576, 1, 17, 289, 4913, 83521, 1419857, 1,
    18, 324, 5832, 104976, 1889568, 1, 19, 361, 6859, 130321, 2476099, 1, 20, 400, 8000, 160000,
    3200000, 1, 21, 441, 9261, 194481, 4084101, 1, 22, 484, 10648, 234256, 5153632, 1, 23, 529,
    12167, 279841, 6436343, 1, 24, 576, 13824, 331776, 7962624, 1, 25, 625, 15625, 390625, 9765625,
    1, 26, 676, 17576, 456976, 11881376, 1, 27, 729, 19683, 531441, 14348907, 1, 28, 784, 21952,
    614656, 17210368, 1, 29, 841, 24389, 707281, 20511149, 1, 30, 900, 27000, 810000, 24300000, 1,
    31, 961, 29791, 923521, 28629151, 1, 32, 1024, 32768, 1048576, 1, 33, 1089, 35937, 1185921, 1,
    34, 1156, 39304, 1336336, 1, 35, 1225, 42875, 1500625, 1, 36, 1296, 46656, 1679616, 1, 37,
    1369, 50653, 1874161, 1, 38, 1444, 54872, 2085136, 1, 39, 1521, 59319, 2313441, 1, 40, 1600,
    64000, 2560000, 1, 41, 1681, 68921, 2825761, 1, 42, 1764, 74088, 3111696, 1, 43, 1849, 79507,
    3418801, 1, 44, 1936, 85184, 3748096, 1, 45, 2025, 91125, 4100625, 1, 46, 2116, 97336, 4477456,
    1, 47, 2209, 103823, 4879681, 1, 48, 2304, 110592, 5308416, 1, 49, 2401, 117649, 5764801, 1,
    50, 2500, 125000, 6250000, 1, 51, 2601, 132651, 6765201, 1, 52, 2704, 140608, 7311616, 1, 53,
    2809, 148877, 7890481, 1, 54, 2916, 157464, 8503056, 1, 55, 3025, 166375, 9150625, 1, 56, 3136,
    175616, 9834496, 1, 57, 3249, 185193, 10556001, 1, 58, 3364, 195112, 11316496, 1, 59, 3481,
    205379, 12117361, 1, 60, 3600, 216000, 12960000, 1, 61, 3721, 226981, 13845841, 1, 62, 3844,
    238328, 14776336, 1, 63, 3969, 250047, 15752961, 1, 64, 4096, 262144, 16777216,
];
