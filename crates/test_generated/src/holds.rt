// Holds for the nodes of a generated map, each list by a rule (document 02, paper 2). A cost that is above what its tail's hold leaves of
// the ceiling comes down to that, so that every sum stays within the ceiling and many reach it.
use crate::maps::Map;
use crate::{maps, random};
use test_reference_map::map::Lists;
use test_reference_map::{map, words};

// A rule is a number, since the families of maps count through the rules. No holds.
pub const ZERO: u32 = 0;

pub const ANY: u32 = 1;
// What the dearest arc out of the node leaves.
pub const LEFT: u32 = 2;
// The most at every node but the source.
pub const MOST: u32 = 3;
// The most at the source, at most half of it elsewhere.
pub const SOURCE_MOST: u32 = 4;

// How many rules there are.
pub const RULES: u32 = 5;

// One hold in four is 0, one in eight the most, the others are anything up to it.
fn any_hold(most: u32, word: u64) -> u32 {
    match random::below(word, 8) {
        0 | 1 => 0,
        2 => most,
        _ => random::below(random::next(word), maps::plus(most, 1)),
    }
}

// The greatest cost of the arcs of node v.
fn greatest_cost(lists: &Lists, v: u64) -> u64 {
    map::arcs(lists, v)
        .map(|arc| map::cost(lists, arc))
        .max()
        .unwrap_or(0)
}

// No cost of the arcs of node v is above a limit.
fn lower_costs(lists: &mut Lists, v: u64, limit: u64) {
    for arc in map::arcs(lists, v) {
        let cost = words::least(map::cost(lists, arc), limit);
        map::set(lists, map::COSTS, arc, cost);
    }
}

fn at_source(map: Map, v: u32, there: u32, elsewhere: u32) -> u32 {
    if v == map.source {
        return there;
    }
    elsewhere
}

// The hold of node v, whose arcs leave so much of the ceiling.
fn hold_of(map: Map, rule: u32, most: u32, v: u32, left: u64, word: u64) -> u64 {
    match rule {
        ANY => u64::from(any_hold(most, word)),
        LEFT => words::least(left, u64::from(most)),
        MOST => u64::from(at_source(map, v, 0, most)),
        SOURCE_MOST => u64::from(at_source(map, v, most, any_hold(most / 2, word))),
        _ => 0,
    }
}

fn fill_node(map: Map, rule: u32, most: u32, v: u32, word: u64, lists: &mut Lists) {
    let node = u64::from(v);
    let ceiling = u64::from(map.ceiling);
    let left = words::minus(ceiling, greatest_cost(lists, node));
    let hold = hold_of(map, rule, most, v, left, word);
    map::set(lists, map::HOLDS, node, hold);
    lower_costs(lists, node, words::minus(ceiling, hold));
}

// The holds of a map whose arcs are filled, none above the most.
pub fn fill(map: Map, rule: u32, most: u32, lists: &mut Lists) {
    let mut word = random::next(map.seed);
    for v in 0..map.nodes {
        word = random::next(random::next(word));
        fill_node(map, rule, most, v, word, lists);
    }
}
