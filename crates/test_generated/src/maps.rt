// The generated maps, each by a rule for how many arcs leave a node, where they lead and what they cost (document 01, "Edges").
use crate::random;
use test_reference_map::map;
use test_reference_map::map::Lists;

// A rule is a number, since the families of maps count through the rules and a map is drawn by it.
pub const RANDOM: u32 = 0;

pub const GRID: u32 = 1;

pub const CHAIN: u32 = 2;

pub const EQUAL_STAR: u32 = 3;

pub const DISTINCT_STAR: u32 = 4;

pub const ZERO_COSTS: u32 = 5;

pub const TWO_PARTS: u32 = 6;

pub const LOOPS_AND_PARALLELS: u32 = 7;

pub const ALL_DECREASES: u32 = 8;

pub const NO_ARCS: u32 = 9;

pub const SAME_DEGREE: u32 = 10;

// How many rules there are.
pub const RULES: u32 = 11;

// `measure` is the rule's own number: the most arcs of a node, a grid's width, a cost's factor.
#[derive(Clone, Copy)]
pub struct Map {
    pub rule: u32,
    pub nodes: u32,
    pub ceiling: u32,
    pub source: u32,
    pub segments: u32,
    pub measure: u32,
    pub seed: u64,
}

// Costs up to 15, 1,023, 65,535 or 1,048,575, each as often.
pub fn any_ceiling(word: u64) -> u32 {
    let more = random::next(word);
    match random::below(word, 4) {
        0 => random::below(more, 16),
        1 => random::below(more, 1024),
        2 => random::below(more, 65536),
        _ => random::below(more, 1048576),
    }
}

// Up to 48 nodes with up to 6 arcs each, by any rule.
pub fn small(rule: u32, number: u32) -> Map {
    let seed = random::seed(rule, number);
    let second = random::next(seed);
    let third = random::next(second);
    let fourth = random::next(third);
    let nodes = random::below(seed, 48) % 48 + 1;
    Map {
        rule,
        nodes,
        ceiling: any_ceiling(second),
        source: random::below(third, nodes),
        segments: random::below(fourth, 63) % 63 + 2,
        measure: random::below(random::next(fourth), 6) % 6 + 1,
        seed: random::next(fourth),
    }
}

// Sums and products of small numbers.
pub fn plus(a: u32, b: u32) -> u32 {
    a.wrapping_add(b)
}

pub fn minus(a: u32, b: u32) -> u32 {
    a.saturating_sub(b)
}

pub fn rest(a: u32, b: u32) -> u32 {
    a.checked_rem(b).unwrap_or(a)
}

// How many arcs leave node v.
fn degree(map: Map, v: u32, word: u64) -> u32 {
    let after = minus(minus(map.nodes, 1), v);
    let rule = map.rule;
    match rule {
        GRID => 4,
        CHAIN => after.min(1),
        EQUAL_STAR | DISTINCT_STAR => star_degree(map, v),
        ALL_DECREASES => after,
        NO_ARCS => 0,
        SAME_DEGREE => map.measure,
        _ => random::below(word, plus(map.measure, 1)),
    }
}

// The star's arcs leave its source, node 0.
fn star_degree(map: Map, v: u32) -> u32 {
    if v == 0 {
        return minus(map.nodes, 1);
    }
    0
}

// The arcs of a grid lead right, left, down and up; where one would leave the grid it is a self-loop.
fn grid_head(map: Map, v: u32, slot: u32) -> u32 {
    let width = map.measure;
    let column = rest(v, width);
    let right = plus(v, 1);
    let down = plus(v, width);
    match slot {
        0 if plus(column, 1) < width && right < map.nodes => right,
        1 if column > 0 => minus(v, 1),
        2 if down < map.nodes => down,
        3 if v >= width => minus(v, width),
        _ => v,
    }
}

// A node of the same half.
fn part_head(map: Map, v: u32, word: u64) -> u32 {
    let half = map.nodes / 2;
    if v < half {
        return random::below(word, half);
    }
    plus(half, random::below(word, minus(map.nodes, half)))
}

// The node itself and the one after it, in turn.
fn parallel_head(map: Map, v: u32, slot: u32) -> u32 {
    if slot % 2 == 0 {
        return v;
    }
    rest(plus(v, 1), map.nodes)
}

fn head(map: Map, v: u32, slot: u32, word: u64) -> u32 {
    let rule = map.rule;
    match rule {
        GRID => grid_head(map, v, slot),
        CHAIN | EQUAL_STAR | DISTINCT_STAR | ALL_DECREASES => plus(plus(v, 1), slot),
        TWO_PARTS => part_head(map, v, word),
        LOOPS_AND_PARALLELS => parallel_head(map, v, slot),
        _ => random::below(word, map.nodes),
    }
}

// One cost in four is not 0.
fn rare_cost(map: Map, word: u64) -> u32 {
    if random::below(word, 4) == 0 {
        return random::below(random::next(word), plus(map.ceiling, 1));
    }
    0
}

// One cost in eight is the ceiling, the others are anything up to it.
fn any_cost(map: Map, word: u64) -> u32 {
    if random::below(word, 8) == 0 {
        return map.ceiling;
    }
    random::below(random::next(word), plus(map.ceiling, 1))
}

// Rising or falling costs, by the map's number.
fn distinct_cost(map: Map, slot: u32) -> u32 {
    if map.measure % 2 == 0 {
        return slot;
    }
    minus(minus(map.nodes, 1), slot)
}

// The ceiling, or in every second map up to one less.
fn chain_cost(map: Map, word: u64) -> u32 {
    if map.measure % 2 == 0 {
        return map.ceiling;
    }
    minus(map.ceiling, random::below(word, 2))
}

// Of ALL_DECREASES: an arc from v to w costs 2(w - v) - 1 times the factor, so that each later tail gives w a smaller distance.
fn cost(map: Map, slot: u32, word: u64) -> u32 {
    let rule = map.rule;
    match rule {
        CHAIN => chain_cost(map, word),
        EQUAL_STAR => map.ceiling,
        DISTINCT_STAR => distinct_cost(map, slot),
        ZERO_COSTS => rare_cost(map, word),
        ALL_DECREASES => map.measure.wrapping_mul(plus(slot.wrapping_mul(2), 1)),
        _ => any_cost(map, word),
    }
}

fn put(lists: &mut Lists, list: u64, place: u32, word: u32) {
    map::set(lists, list, u64::from(place), u64::from(word));
}

// The arcs of node v from one number on; where the generator has got to.
fn fill_node(map: Map, v: u32, first: u32, count: u32, begin: u64, lists: &mut Lists) -> u64 {
    let mut word = begin;
    for slot in 0..count {
        let arc = plus(first, slot);
        word = random::next(word);
        put(lists, map::HEADS, arc, head(map, v, slot, word));
        word = random::next(word);
        put(lists, map::COSTS, arc, cost(map, slot, word));
    }
    word
}

// The lists of a map; how many arcs it has.
pub fn fill(map: Map, lists: &mut Lists) -> u32 {
    let nodes = map.nodes;
    let mut word = map.seed;
    let mut arcs = 0;
    for v in 0..nodes {
        put(lists, map::STARTS, v, arcs);
        word = random::next(word);
        let count = degree(map, v, word);
        word = fill_node(map, v, arcs, count, word, lists);
        arcs = plus(arcs, count);
    }
    put(lists, map::STARTS, nodes, arcs);
    arcs
}
