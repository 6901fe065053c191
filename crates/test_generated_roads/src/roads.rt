// Generated road files (document 02, paper 1): how many nodes and arcs they have, in which order their tails come, and which of their numbers,
// or of those that they are read with, is put to an edge.
use test_generated::{edges, maps, random};

// How the tails of the arcs come.
#[derive(Clone, Copy)]
pub enum Order {
    Falling,
    One,
    Rising,
    Any,
}

// A number of an arc.
#[derive(Clone, Copy, PartialEq)]
pub enum Field {
    Tail,
    Head,
    Cost,
}

// A number of an arc that is put to an edge.
#[derive(Clone, Copy)]
pub struct Edge {
    pub arc: u32,
    pub field: Field,
    pub number: u32,
}

// The p line stands before arc number `problem`, and a second one before arc number `again`. The last four are what the file is read with.
#[derive(Clone, Copy)]
pub struct Road {
    pub nodes: u32,
    pub arcs: u32,
    pub ceiling: u32,
    pub order: Order,
    pub seed: u64,
    pub told_nodes: u32,
    pub told_arcs: u32,
    pub problem: Option<u32>,
    pub again: Option<u32>,
    pub edge: Option<Edge>,
    pub given: u32,
    pub starts: u32,
    pub heads: u32,
    pub costs: u32,
}

// Any is as often as the others together.
fn any_order(word: u64) -> Order {
    match random::below(word, 6) {
        0 => Order::Falling,
        1 => Order::One,
        2 => Order::Rising,
        _ => Order::Any,
    }
}

fn most_nodes(large: bool) -> u32 {
    if large {
        return 4096;
    }
    60
}

fn most_arcs(large: bool, nodes: u32) -> u32 {
    if large {
        return 2500;
    }
    nodes % 64 * 3 + 2
}

// Words lent of a list that needs so many: up to two more.
fn lent(needed: u32, word: u64) -> u32 {
    maps::plus(needed, random::below(word, 3))
}

// A file of up to 60 nodes, one in a hundred of up to 4,096, with every number as it is to be.
pub fn draw(family: u32, number: u32) -> Road {
    let first = random::seed(family, number);
    let second = random::next(first);
    let third = random::next(second);
    let fourth = random::next(third);
    let fifth = random::next(fourth);
    let large = number % 100 == 50;
    let nodes = maps::plus(random::below(first, most_nodes(large)), 1);
    let arcs = random::below(second, most_arcs(large, nodes));
    let ceiling = maps::any_ceiling(third);
    Road {
        nodes,
        arcs,
        ceiling,
        order: any_order(fourth),
        seed: fifth,
        told_nodes: nodes,
        told_arcs: arcs,
        problem: Some(0),
        again: None,
        edge: None,
        given: ceiling,
        starts: lent(maps::plus(nodes, 1), first),
        heads: lent(arcs, second),
        costs: lent(arcs, third),
    }
}

// n and m of the p line: 0, the most and one more; one less and one more than there are.
fn with_told(road: Road, word: u64) -> Road {
    let mut told = road;
    match random::below(word, 6) {
        0 => told.told_nodes = edges::one_of(random::next(word), 0, 4097, 9999999),
        1 => told.told_nodes = maps::minus(road.nodes, 1),
        2 => told.told_arcs = edges::one_of(random::next(word), 65536, 65537, 9999999),
        3 => told.told_arcs = maps::minus(road.arcs, 1),
        4 => told.told_arcs = maps::plus(road.arcs, 1),
        _ => {
            told.told_nodes = 4096;
            told.starts = 4097;
        }
    }
    told
}

// A list a word too short.
fn with_short(road: Road, word: u64) -> Road {
    let mut short = road;
    match random::below(word, 3) {
        0 => short.starts = road.nodes,
        1 => short.heads = maps::minus(road.arcs, 1),
        _ => short.costs = maps::minus(road.arcs, 1),
    }
    short
}

// A ceiling at its most, above that, or too low.
fn with_ceiling(road: Road, word: u64) -> Road {
    let second = random::next(word);
    let given = match random::below(word, 3) {
        0 => edges::one_of(second, 1048575, 1048576, 4294967295),
        _ => random::below(second, maps::plus(road.ceiling, 1)),
    };
    Road { given, ..road }
}

// The p line behind some arcs, twice, or not at all.
fn with_problem(road: Road, word: u64) -> Road {
    let place = random::below(random::next(word), maps::plus(road.arcs, 1));
    let mut changed = road;
    match random::below(word, 3) {
        0 => changed.problem = Some(place),
        1 => changed.again = Some(place),
        _ => changed.problem = None,
    }
    changed
}

fn any_field(word: u64) -> Field {
    match random::below(word, 3) {
        0 => Field::Tail,
        1 => Field::Head,
        _ => Field::Cost,
    }
}

// A tail or a head at an end of 1 to n or past it, a cost at the ceiling, above it, or of eight digits.
fn with_arc(road: Road, word: u64) -> Road {
    let second = random::next(word);
    let third = random::next(second);
    let arc = random::below(word, road.arcs);
    let field = any_field(second);
    let number = match field {
        Field::Tail | Field::Head => edges::one_of(third, 0, road.nodes, edges::after(road.nodes)),
        Field::Cost => edges::one_of(third, road.ceiling, edges::after(road.ceiling), 10000000),
    };
    let edge = Edge { arc, field, number };
    Road {
        edge: Some(edge),
        ..road
    }
}

// The file with a number at an edge.
pub fn with_edge(road: Road, word: u64) -> Road {
    let second = random::next(word);
    match random::below(word, 8) {
        0 | 1 => with_told(road, second),
        2 => with_short(road, second),
        3 => with_ceiling(road, second),
        4 => with_problem(road, second),
        _ => with_arc(road, second),
    }
}
