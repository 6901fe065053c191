// The cheapest walks to the destination over the map as it is, by the words of document 02, papers 2 and 7: the costs of the arcs and the
// holds of the nodes strictly between the ends, each visit counted, so that a walk that passes the destination and comes back pays its hold.
// Every arc is tried before the walks found, round by round.
use test_reference_map::map::Lists;
use test_reference_map::nodes::Table;
use test_reference_map::{map, nodes, words};

// What the cheapest walk costs behind an arc to a node: it passes the node or, at the destination, ends. The mark for none is above every
// cost.
fn behind(destination: u64, lists: &Lists, table: &Table, head: u64) -> u64 {
    let passing = words::sum(map::hold(lists, head), nodes::get(table, nodes::WALK, head));
    if head == destination {
        return words::least(0, passing);
    }
    passing
}

// Whether the walk that begins with an arc of node v is cheaper than those found, of which it then is one.
fn try_arc(destination: u64, lists: &Lists, table: &mut Table, v: u64, arc: u64) -> bool {
    let rest = behind(destination, lists, table, map::head(lists, arc));
    let cost = words::sum(map::cost(lists, arc), rest);
    let cheaper = cost < nodes::get(table, nodes::WALK, v);
    if cheaper {
        nodes::set(table, nodes::WALK, v, cost);
    }
    cheaper
}

// Whether an arc of any node has made a walk cheaper.
fn try_arcs(n: u64, destination: u64, lists: &Lists, table: &mut Table) -> bool {
    let mut found = false;
    for v in 0..n {
        for arc in map::arcs(lists, v) {
            found |= try_arc(destination, lists, table, v, arc);
        }
    }
    found
}

// The cheapest walk of one arc or more from each node; it has at most n arcs, so that n rounds find it.
fn walks(n: u64, destination: u64, lists: &Lists, table: &mut Table) {
    nodes::fill(table, nodes::WALK, n, nodes::NONE);
    for _ in 0..n {
        if !try_arcs(n, destination, lists, table) {
            return;
        }
    }
}

// What the cheapest walk from each node costs; the walk of no arc leads from the destination.
pub fn cheapest(n: u64, destination: u64, lists: &Lists, table: &mut Table) {
    walks(n, destination, lists, table);
    nodes::set(table, nodes::WALK, destination, 0);
}
