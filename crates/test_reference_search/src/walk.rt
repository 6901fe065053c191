// The walk from a destination back to the source over the parents of a table (document 01, "Routes").
use crate::refusals;
use test_reference_map::case::Case;
use test_reference_map::map::Lists;
use test_reference_map::nodes::Table;
use test_reference_map::refusal::{Refusal, refuse};
use test_reference_map::{map, nodes, words};

// The node whose arcs an arc is among.
fn tail(n: u64, lists: &Lists, arc: u64) -> Option<u64> {
    (0..n).find(|v| map::arcs(lists, *v).contains(&arc))
}

// The node before v on its route, if its parent leads to it.
fn before(n: u64, m: u64, lists: &Lists, table: &Table, v: u64) -> Option<u64> {
    let arc = nodes::get(table, nodes::PARENT, v);
    if arc >= m || map::head(lists, arc) != v {
        return None;
    }
    tail(n, lists, arc)
}

// The nodes from the destination back to the source are put into the table; how many they are, if the walk arrives in n - 1 arcs.
fn walk_back(case: Case, lists: &Lists, table: &mut Table, destination: u64) -> Option<u64> {
    let n = u64::from(case.nodes);
    let m = u64::from(case.heads);
    let source = u64::from(case.source);
    let mut v = destination;
    for walked in 0..n {
        nodes::set(table, nodes::ROUTE, walked, v);
        if v == source {
            return Some(words::sum(walked, 1));
        }
        v = before(n, m, lists, table, v)?;
    }
    None
}

// What a route pays at the node at a place of it: its hold strictly between the ends, of which the source stands last.
fn hold_at(nodes_of_route: u64, i: u64, lists: &Lists, table: &Table) -> u64 {
    if words::sum(i, 1) >= nodes_of_route {
        return 0;
    }
    map::hold(lists, nodes::get(table, nodes::ROUTE, i))
}

// What a route costs: the costs of its nodes' parents, the source's left out, and the holds of the nodes strictly between its ends (document
// 02, paper 2).
pub fn cost(nodes_of_route: u64, lists: &Lists, table: &Table) -> u64 {
    let mut total = 0;
    for i in 1..nodes_of_route {
        let v = nodes::get(table, nodes::ROUTE, words::minus(i, 1));
        let arc = nodes::get(table, nodes::PARENT, v);
        let hold = hold_at(nodes_of_route, i, lists, table);
        total = words::sum(total, words::sum(map::cost(lists, arc), hold));
    }
    total
}

// 14 and 15.
fn check_destination(case: Case, table: &Table, destination: u64) -> Result<(), Refusal> {
    if destination >= u64::from(case.nodes) {
        return refuse(14, 0);
    }
    let parent = nodes::get(table, nodes::PARENT, destination);
    if destination != u64::from(case.source) && parent == nodes::NONE {
        return refuse(15, 0);
    }
    Ok(())
}

// The route to a destination, in a list of so many words; how many nodes it has.
pub fn route(
    case: Case,
    lists: &Lists,
    table: &mut Table,
    destination: u64,
    room: u64,
) -> Result<u64, Refusal> {
    refusals::check(None, case, lists)?;
    check_destination(case, table, destination)?;
    let Some(nodes) = walk_back(case, lists, table, destination) else {
        return refuse(16, 0);
    };
    if room < nodes {
        return refuse(17, 0);
    }
    Ok(nodes)
}
