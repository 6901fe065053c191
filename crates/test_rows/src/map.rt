// The lists that a map is lent in, one behind the other: 4,098 words of starts, 65,537 of heads and of costs, 4,098 of parents and of holds.
use crate::rows::Row;

pub type Map = [u32; 143368];

pub const HEADS: u32 = 4098;

pub const COSTS: u32 = 69635;

pub const PARENTS: u32 = 135172;

pub const HOLDS: u32 = 139270;

// A list is told by its first letter, holds from heads by the second.
pub fn place(list: u32, at: u32) -> usize {
    let letter = (list % 256) as u8;
    let second = (list / 256 % 256) as u8;
    if letter == b'h' && second == b'o' {
        return HOLDS as usize + at as usize;
    }
    match letter {
        b'h' => HEADS as usize + at as usize,
        b'c' => COSTS as usize + at as usize,
        b'p' => PARENTS as usize + at as usize,
        _ => at as usize,
    }
}

pub fn word_at(map: &[u32], at: usize) -> u32 {
    map.get(at).copied().unwrap_or(0)
}

// Row: words LIST PLACE WORD,WORD,..
pub fn put_words(map: &mut Map, row: Row, line: &[u8]) {
    let mut next = row.words;
    for i in place(row.n1, row.n2)..map.len() {
        if next >= line.len() {
            break;
        }
        let read = crate::rows::field_at(line, next);
        map[i] = read.value;
        next = read.next;
    }
}

pub fn quotient(number: u32, divisor: u32) -> u32 {
    number.checked_div(divisor).unwrap_or(0)
}

// Drawing takes every second number of the generator 1,664,525 x + 1,013,904,223 modulo 2^32.
fn next(word: u32, drawing: bool, step: u32) -> u32 {
    if drawing {
        return ((word as u64 * 389569705 + 1196435762) % 4294967296) as u32;
    }
    word.wrapping_add(step)
}

// A divisor takes away the generator's low bits, which repeat soon.
fn drawn(word: u32, drawing: bool, divisor: u32, modulus: u32) -> u32 {
    if modulus == 0 {
        return word;
    }
    if drawing {
        return quotient(word, divisor) % modulus;
    }
    word % modulus
}

// Rows: fill LIST FROM,END FIRST,STEP,MODULUS
// draw LIST FROM,END FIRST,DIVISOR,MODULUS
pub fn spread(map: &mut Map, row: Row) {
    let drawing = row.word == b'd';
    let from = place(row.n1, row.n2);
    let end = place(row.n1, row.n3).min(map.len());
    let mut word = row.n4;
    for i in from..end {
        map[i] = drawn(word, drawing, row.n5, row.n6);
        word = next(word, drawing, row.n5);
    }
}

// So many words of the map from a place on, and all of it if it has not so many there.
pub fn part(map: &[u32], from: u32, words: u32) -> &[u32] {
    let start = from as usize;
    let end = start + words as usize;
    map.get(start..end).unwrap_or(map)
}
