// Cases at the edge of every refusal (document 01, "What a call returns", and for 20 and the sums of 8 document 02, paper 2): a small map of
// which one or two numbers or words are put to an edge, so that the order of the checks shows too.
use crate::random;
use test_reference_map::case::Case;
use test_reference_map::map;
use test_reference_map::map::Lists;
use test_reference_map::words::{minus, sum};

// One of three numbers.
pub fn one_of(word: u64, first: u32, second: u32, third: u32) -> u32 {
    match random::below(word, 3) {
        0 => first,
        1 => second,
        _ => third,
    }
}

// One less and one more.
pub fn before(number: u32) -> u32 {
    number.wrapping_sub(1)
}

pub fn after(number: u32) -> u32 {
    number.wrapping_add(1)
}

fn any_segments(word: u64) -> u32 {
    match random::below(word, 6) {
        0 => 0,
        1 => 1,
        2 => 2,
        3 => 64,
        4 => 65,
        _ => 4294967295,
    }
}

// As many words of the work list as a run of n nodes has to be lent, or one less.
fn any_work(word: u64, n: u32, kept: u32) -> u32 {
    let by_node = n % 8192 * 4;
    match random::below(word, 5) {
        0 => by_node + 63,
        1 => by_node + 64,
        2 => by_node + 383,
        3 => by_node + 384,
        _ => kept,
    }
}

// 1, 2, 3, 5, 9 and the length of 20.
fn with_numbers(case: Case, refusal: u32, word: u64) -> Case {
    let n = case.nodes;
    match refusal {
        1 => Case {
            nodes: one_of(word, 0, 4096, 4097),
            ..case
        },
        2 => Case {
            ceiling: one_of(word, 1048575, 1048576, 4294967295),
            ..case
        },
        3 => Case {
            source: one_of(word, before(n), n, 4294967295),
            ..case
        },
        5 => Case {
            starts: one_of(word, n, case.starts, after(case.starts)),
            ..case
        },
        9 => Case {
            segments: any_segments(word),
            ..case
        },
        20 => Case {
            holds: one_of(word, before(n), n, after(n)),
            ..case
        },
        _ => case,
    }
}

// 4: heads and costs of different length, or of the most arcs and one more.
fn with_arcs(case: Case, word: u64) -> Case {
    let heads = one_of(word, after(case.heads), 65536, 65537);
    Case {
        heads,
        costs: one_of(random::next(word), heads, heads, case.costs),
        ..case
    }
}

// 10: the lent lists as long as they have to be, or a word shorter.
fn with_lent(case: Case, word: u64) -> Case {
    let second = random::next(word);
    let third = random::next(second);
    let n = case.nodes % 8192;
    Case {
        distances: one_of(word, case.distances, n, before(n)),
        parents: one_of(second, case.parents, n, before(n)),
        roster: one_of(third, case.roster, n, before(n)),
        work: any_work(random::next(third), n, case.work),
        ..case
    }
}

// The refusals of a run, of which there are 11: 1 to 10, and 20.
pub fn refusal_of(i: u32) -> u32 {
    if i < 10 {
        return i + 1;
    }
    20
}

// The case with the numbers that a refusal is about at an edge.
pub fn numbers(case: Case, refusal: u32, word: u64) -> Case {
    match refusal {
        4 => with_arcs(case, word),
        10 => with_lent(case, word),
        _ => with_numbers(case, refusal, word),
    }
}

// The list that a refusal is about.
fn list_of(refusal: u32) -> Option<u64> {
    match refusal {
        6 => Some(map::STARTS),
        7 => Some(map::HEADS),
        8 => Some(map::COSTS),
        20 => Some(map::HOLDS),
        _ => None,
    }
}

// How many words of it there are to choose from.
fn count_of(case: Case, refusal: u32) -> u32 {
    match refusal {
        6 => case.starts,
        20 => case.nodes,
        _ => case.heads,
    }
}

// What the hold of an arc's tail leaves of the ceiling.
fn left_for(case: Case, lists: &Lists, arc: u64) -> u32 {
    let nodes = u64::from(case.nodes);
    match (0..nodes).find(|v| arc < map::start(lists, sum(*v, 1))) {
        Some(tail) => {
            let left = minus(u64::from(case.ceiling), map::hold(lists, tail));
            (left % 4294967296) as u32
        }
        None => case.ceiling,
    }
}

// A word of starts is any small number, m, or m + 1; a head, a hold or a cost with its tail's hold is the most there may be, or more.
fn edge_word(case: Case, refusal: u32, left: u32, word: u64) -> u32 {
    match refusal {
        6 => one_of(word, random::below(word, 6), case.heads, after(case.heads)),
        7 => one_of(word, before(case.nodes), case.nodes, 4294967295),
        8 => one_of(word, left, after(left), 4294967295),
        _ => one_of(word, case.ceiling, after(case.ceiling), 4294967295),
    }
}

// The cost of an arc and its tail's hold together are so much above the ceiling.
pub fn put_sum(case: Case, arc: u64, above: u64, lists: &mut Lists) {
    let left = u64::from(left_for(case, lists, arc));
    map::set(lists, map::COSTS, arc, sum(left, above));
}

// The map with a word that a refusal is about at an edge.
pub fn words(case: Case, refusal: u32, word: u64, lists: &mut Lists) {
    let place = u64::from(random::below(word, count_of(case, refusal)));
    let left = left_for(case, lists, place);
    let put = edge_word(case, refusal, left, random::next(word));
    if let Some(list) = list_of(refusal) {
        map::set(lists, list, place, u64::from(put));
    }
}
