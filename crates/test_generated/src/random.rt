// The generator: linear congruential, of 32 bits.
use test_reference_map::words;

pub fn next(word: u64) -> u64 {
    (word % 4294967296 * 1664525 + 1013904223) % 4294967296
}

// A number below a bound of at most 2^20, from the high bits, which repeat the least.
pub fn below(word: u64, bound: u32) -> u32 {
    let number = (word / 4096 % 1048576) as u32;
    number.checked_rem(bound).unwrap_or(0)
}

// Where the numbers of a case begin.
pub fn seed(family: u32, number: u32) -> u64 {
    let first = words::product(u64::from(family), 1000003);
    let second = words::product(u64::from(number), 7919);
    next(next(words::sum(words::sum(first, second), 1990)))
}
