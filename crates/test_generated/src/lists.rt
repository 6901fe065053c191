// Lists that are lent: each full of a word of its own that no call writes, cut to a length, and compared with what it is to hold.
use test_reference_map::nodes;
use test_reference_map::nodes::Table;

// What each list is full of before it is lent.
pub const DISTANCES: u32 = 4294967201;

pub const PARENTS: u32 = 4294967202;

pub const ROSTER: u32 = 4294967203;

pub const WORK: u32 = 4294967204;

pub const ROUTE: u32 = 4294967205;

pub const STARTS: u32 = 4294967206;

pub const HEADS: u32 = 4294967207;

pub const COSTS: u32 = 4294967208;

pub const HOLDS: u32 = 4294967210;

pub const OLD_ARCS: u32 = 4294967211;

// What the lists of a map are full of before it is put there.
pub const MAP: u32 = 4294967209;

// No row of the table: each of its numbers is 0.
pub const CLEARED: u64 = 12;

// Words of a list from a place on, or fewer if it has no more.
pub fn part(list: &[u32], first: u64, count: u32) -> &[u32] {
    let behind = list.get(first as usize..).unwrap_or(&[]);
    behind.get(..count as usize).unwrap_or(behind)
}

// The first words of a list, or all if it has no more.
pub fn front(list: &mut [u32], count: u32) -> &mut [u32] {
    let end = count as usize;
    if end > list.len() {
        return list;
    }
    &mut list[..end]
}

// 1 if two numbers differ.
pub fn differ(a: u64, b: u64) -> u64 {
    u64::from(a != b)
}

// What a list has at a place: up to an end a number of the table, past it what it was full of.
fn number_at(table: &Table, row: u64, i: u64, end: u64, full: u32) -> u64 {
    if i < end {
        return nodes::get(table, row, i);
    }
    u64::from(full)
}

// How many words of a list are not the numbers of a row up to an end and what it was full of past it.
pub fn not_row(list: &[u32], full: u32, table: &Table, row: u64, end: u64) -> u64 {
    list.iter()
        .enumerate()
        .filter(|(i, word)| u64::from(**word) != number_at(table, row, *i as u64, end, full))
        .count() as u64
}

// The same where those up to an end are the words of another list.
pub fn not_words(list: &[u32], full: u32, expected: &[u32]) -> u64 {
    list.iter()
        .enumerate()
        .filter(|(i, word)| **word != expected.get(*i).copied().unwrap_or(full))
        .count() as u64
}
