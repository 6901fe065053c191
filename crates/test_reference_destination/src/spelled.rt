// What the parents of a run to a destination spell: from each node on, the first arc first, a route to the destination that costs the node's
// distance (document 02, paper 7).
use test_reference_map::case::Case;
use test_reference_map::map::Lists;
use test_reference_map::nodes::Table;
use test_reference_map::{map, nodes, words};

// Whether the parent of node v is an arc that leaves it.
fn leaves(m: u64, lists: &Lists, table: &Table, v: u64) -> bool {
    let arc = nodes::get(table, nodes::PARENT, v);
    arc < m && map::arcs(lists, v).contains(&arc)
}

// What a route pays at a node that it comes to.
fn paid(destination: u64, lists: &Lists, v: u64) -> u64 {
    if v == destination {
        return 0;
    }
    map::hold(lists, v)
}

// What the route from node v on costs, if its parents lead to the destination in n - 1 arcs.
fn route_cost(case: Case, lists: &Lists, table: &Table, from: u64) -> Option<u64> {
    let n = u64::from(case.nodes);
    let m = u64::from(case.heads);
    let destination = u64::from(case.source);
    let mut total = 0;
    let mut v = from;
    for _ in 0..n {
        if v == destination {
            return Some(total);
        }
        if !leaves(m, lists, table, v) {
            return None;
        }
        let arc = nodes::get(table, nodes::PARENT, v);
        v = map::head(lists, arc);
        let cost = words::sum(map::cost(lists, arc), paid(destination, lists, v));
        total = words::sum(total, cost);
    }
    None
}

// The destination has no parent, nor has a node at no distance.
fn ends(case: Case, table: &Table, v: u64) -> bool {
    v == u64::from(case.source) || nodes::get(table, nodes::DISTANCE, v) == nodes::NONE
}

// Whether the parents spell what they are to from node v on.
fn spells(case: Case, lists: &Lists, table: &Table, v: u64) -> bool {
    let cost = route_cost(case, lists, table, v).unwrap_or(nodes::NONE);
    let none = nodes::get(table, nodes::PARENT, v) == nodes::NONE;
    cost == nodes::get(table, nodes::DISTANCE, v) && none == ends(case, table, v)
}

// The nodes from which they do not.
pub fn failing(case: Case, lists: &Lists, table: &Table) -> u64 {
    let failing = (0..u64::from(case.nodes)).filter(|v| !spells(case, lists, table, *v));
    failing.count() as u64
}
