// What a row gives, in numbers.
use std::io;

pub fn print_line(rt: &impl Print, line: &[u8]) -> io::Result<()> {
    rt.write_all(line)?;
    rt.write_all(b"\n")
}

pub fn print_number(rt: &impl Print, number: u64) -> io::Result<()> {
    rt.write_all(b" ")?;
    rt.print(number)
}

pub fn print_words(rt: &impl Print, list: &[u32]) -> io::Result<()> {
    for word in list {
        print_number(rt, u64::from(*word))?;
    }
    Ok(())
}

// Sums stay far below 2^62: 33,280 bytes of a text, 1,400,000 of a road file, 16,768 words, or 65,540 words below 2^22, weighted by at most as
// many, give less than 2^60. So the remainders take nothing away, and the proof sees that no sum wraps.
fn plus(sum: u64, more: u64) -> u64 {
    sum % 4611686018427387904 + more % 4611686018427387904
}

// The plain sum of a list of bytes or words and its sum weighted by place, the last word once and each earlier one once more.
pub fn print_sums<T: Copy + Into<u64>>(rt: &impl Print, list: &[T]) -> io::Result<()> {
    let mut plain: u64 = 0;
    let mut weighted: u64 = 0;
    for word in list {
        plain = plus(plain, (*word).into());
        // The plain sum first: the other way round the compiled loop copies one sum more.
        weighted = plus(plain, weighted);
    }
    print_number(rt, plain)?;
    print_number(rt, weighted)
}
