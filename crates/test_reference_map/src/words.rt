// Lists that are read and written at any place, and numbers that cannot overflow: a word past a list's end reads as 0 and is not written.
// So no function over them asks anything of its caller.

// A word of a list.
pub fn word(list: &[u32], place: u64) -> u64 {
    list.get(place as usize).map_or(0, |word| u64::from(*word))
}

// Sums stay far below 2^64.
pub fn sum(a: u64, b: u64) -> u64 {
    a.wrapping_add(b)
}

// The difference, 0 where there is none.
pub fn minus(a: u64, b: u64) -> u64 {
    a.saturating_sub(b)
}

// Factors stay below 2^32.
pub fn product(a: u64, b: u64) -> u64 {
    a % 4294967296 * (b % 4294967296)
}

// The floor of a / b.
pub fn quotient(a: u64, b: u64) -> u64 {
    a.checked_div(b).unwrap_or(0)
}

pub fn least(a: u64, b: u64) -> u64 {
    a.min(b)
}

pub fn most(a: u64, b: u64) -> u64 {
    a.max(b)
}

pub fn power(base: u64, exponent: u64) -> u64 {
    let mut result = 1;
    for _ in 0..exponent {
        result = product(result, base);
    }
    result
}
