// Routes beside a plain walk: the answer, every word of the list lent, and the cost of the route (document 01, "Routes").
use crate::beside::ByNode;
use crate::expected::number_of;
use model::{Fault, Node};
use test_generated::tallies::Found;
use test_generated::{lists, random};
use test_reference_map::case::Case;
use test_reference_map::map::Lists;
use test_reference_map::nodes::Table;
use test_reference_map::refusal::Refusal;
use test_reference_map::{map, nodes, words};
use test_reference_search::walk;

// Number and place, then how many nodes the route has.
fn numbers_of(answer: Result<usize, Fault>) -> [u64; 3] {
    match answer {
        Ok(nodes) => [0, 0, nodes as u64],
        Err(fault) => [u64::from(fault.kind.number()), fault.place as u64, 0],
    }
}

fn differing_numbers(answer: Result<usize, Fault>, expected: Result<u64, Refusal>) -> u64 {
    let wanted = match expected {
        Ok(nodes) => [0, 0, nodes],
        Err(Refusal { number, place }) => [number, place, 0],
    };
    let given = numbers_of(answer);
    let pairs = given.iter().zip(&wanted);
    pairs.filter(|(one, other)| one != other).count() as u64
}

// What the route's list has at a place: first the nodes of the walk, source first, past them what it was full of.
fn node_at(table: &Table, count: u64, i: u64) -> u64 {
    if i < count {
        let back = words::minus(count, words::sum(i, 1));
        return nodes::get(table, nodes::ROUTE, back);
    }
    lists::ROUTE as u64
}

fn differing_nodes(list: &ByNode, table: &Table, count: u64) -> u64 {
    let places = (0..4112).filter(|i| words::word(list, *i) != node_at(table, count, *i));
    places.count() as u64
}

// A route over the parents in a list of so many words, and the walk over the parents of the table: what the walk is refused for, and how
// many numbers and words of the route differ.
pub fn route(
    case: Case,
    destination: u32,
    room: u32,
    lists: &Lists,
    parents: &ByNode,
    table: &mut Table,
) -> Found {
    let mut list = [lists::ROUTE; 4112];
    let answer = route::route(
        case.nodes,
        Node(case.source),
        lists::part(lists, map::STARTS, case.starts),
        lists::part(lists, map::HEADS, case.heads),
        lists::part(parents, 0, case.parents),
        Node(destination),
        lists::front(&mut list, room),
    );
    let walked = walk::route(case, lists, table, u64::from(destination), u64::from(room));
    let numbers = differing_numbers(answer, walked);
    let nodes = walked.unwrap_or(0);
    Found {
        number: number_of(walked),
        differences: words::sum(numbers, differing_nodes(&list, table, nodes)),
    }
}

// 1 if the walk to a destination costs something else than its distance.
fn dear(case: Case, destination: u32, lists: &Lists, table: &mut Table) -> u64 {
    let destination = u64::from(destination);
    let walked = walk::route(case, lists, table, destination, 4096);
    let distance = nodes::get(table, nodes::DISTANCE, destination);
    match walked {
        Ok(nodes) => lists::differ(walk::cost(nodes, lists, table), distance),
        Err(Refusal { number: 15, .. }) => lists::differ(distance, nodes::NONE),
        Err(_) => 1,
    }
}

// The first destinations are the last node and the source, the others any node.
fn destination_of(case: Case, word: u64, number: u32) -> u32 {
    match number {
        0 => case.nodes.wrapping_sub(1),
        1 => case.source,
        _ => random::below(word, case.nodes),
    }
}

// The first three have room for every route, the others sometimes too little.
fn room_of(case: Case, word: u64, number: u32) -> u32 {
    if number < 3 {
        return 4112;
    }
    random::below(word, case.nodes)
}

// Routes to several destinations, and their costs, which over damaged parents may be any.
pub fn several(
    case: Case,
    seed: u64,
    damaged: bool,
    lists: &Lists,
    parents: &ByNode,
    table: &mut Table,
) -> u64 {
    let count = if damaged { 12 } else { 5 };
    let mut word = seed;
    let mut found = 0;
    for number in 0..count {
        word = random::next(random::next(word));
        let destination = destination_of(case, word, number);
        let room = room_of(case, random::next(word), number);
        let one = route(case, destination, room, lists, parents, table);
        found = words::sum(found, one.differences);
        if !damaged {
            found = words::sum(found, dear(case, destination, lists, table));
        }
    }
    found
}
