// A table of what the references keep: rows of 4,096 numbers, most of them with a number for each node.
use crate::words;

pub type Table = [u64; 49152];

// A row is a number, since the place of what it keeps is worked out of it.
pub const DISTANCE: u64 = 0;

pub const PARENT: u64 = 1;

pub const MARK: u64 = 2;
// The nodes in the order scanned.
pub const ORDER: u64 = 3;
// The nodes of a route, the destination first.
pub const ROUTE: u64 = 4;

// The same of the steps that are counted.
pub const STEP_DISTANCE: u64 = 5;

pub const STEP_PARENT: u64 = 6;

pub const STEP_ORDER: u64 = 7;
// The bucket that a labelled node was last put in, 0 for every other node.
pub const BUCKET: u64 = 8;
// u(i) at place i.
pub const BOUND: u64 = 9;
// What the steps count.
pub const COUNT: u64 = 10;
// What the cheapest walk of one arc or more costs.
pub const WALK: u64 = 11;

// What a node is marked as.
pub const UNLABELLED: u64 = 0;

pub const LABELLED: u64 = 1;

pub const SCANNED: u64 = 2;

// The mark for "none" (document 01, "What the planner holds and leaves out").
pub const NONE: u64 = 4294967295;

fn place(row: u64, v: u64) -> usize {
    words::sum(words::product(row, 4096), v) as usize
}

pub fn get(table: &Table, row: u64, v: u64) -> u64 {
    table.get(place(row, v)).copied().unwrap_or(0)
}

pub fn set(table: &mut Table, row: u64, v: u64, number: u64) {
    if let Some(kept) = table.get_mut(place(row, v)) {
        *kept = number;
    }
}

pub fn add(table: &mut Table, row: u64, v: u64, more: u64) {
    set(table, row, v, words::sum(get(table, row, v), more));
}

// The first numbers of a row are all the same.
pub fn fill(table: &mut Table, row: u64, count: u64, number: u64) {
    for v in 0..count {
        set(table, row, v, number);
    }
}

// The places up to a count at which two rows differ.
pub fn differing(table: &Table, row: u64, other: u64, count: u64) -> u64 {
    let places = (0..count).filter(|v| get(table, row, *v) != get(table, other, *v));
    places.count() as u64
}
