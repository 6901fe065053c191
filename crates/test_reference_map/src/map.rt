// The lists of a map in one: starts, heads, costs and holds, each with words past the most that a run is lent.
use crate::words;
use std::ops::Range;

pub type Lists = [u32; 139296];

// Where each list begins.
pub const STARTS: u64 = 0;

pub const HEADS: u64 = 4104;

pub const COSTS: u64 = 69648;

pub const HOLDS: u64 = 135192;

// The word of a list at a place.
pub fn get(lists: &Lists, list: u64, place: u64) -> u64 {
    words::word(lists, words::sum(list, place))
}

pub fn set(lists: &mut Lists, list: u64, place: u64, number: u64) {
    if let Some(word) = lists.get_mut(words::sum(list, place) as usize) {
        *word = (number % 4294967296) as u32;
    }
}

// The first arc of node v; of the node after the last, the number past all arcs.
pub fn start(lists: &Lists, v: u64) -> u64 {
    get(lists, STARTS, v)
}

// The arcs of node v in number order.
pub fn arcs(lists: &Lists, v: u64) -> Range<u64> {
    start(lists, v)..start(lists, words::sum(v, 1))
}

pub fn head(lists: &Lists, arc: u64) -> u64 {
    get(lists, HEADS, arc)
}

pub fn cost(lists: &Lists, arc: u64) -> u64 {
    get(lists, COSTS, arc)
}

// What a route pays at node v where it passes it (document 02, paper 2).
pub fn hold(lists: &Lists, v: u64) -> u64 {
    get(lists, HOLDS, v)
}
