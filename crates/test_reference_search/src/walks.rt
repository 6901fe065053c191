// The cheapest walks by the words of document 02, paper 2: the costs of the arcs and the holds of the nodes strictly between the ends, each
// visit counted, so that a walk pays the source's hold too where it comes back and goes on. Every arc is tried behind the walks found,
// round by round.
use test_reference_map::map::Lists;
use test_reference_map::nodes::Table;
use test_reference_map::{map, nodes, words};

// What the cheapest walk over an arc costs: behind one to its tail, or as a walk's first arc. The mark for none is above every cost.
fn over(source: u64, lists: &Lists, table: &Table, tail: u64, arc: u64) -> u64 {
    let cost = map::cost(lists, arc);
    let passing = words::sum(nodes::get(table, nodes::WALK, tail), map::hold(lists, tail));
    let behind = words::sum(passing, cost);
    if tail == source {
        return words::least(cost, behind);
    }
    behind
}

// Whether the walk over an arc is cheaper than those found, of which it then is one.
fn try_arc(source: u64, lists: &Lists, table: &mut Table, tail: u64, arc: u64) -> bool {
    let head = map::head(lists, arc);
    let cost = over(source, lists, table, tail, arc);
    let cheaper = cost < nodes::get(table, nodes::WALK, head);
    if cheaper {
        nodes::set(table, nodes::WALK, head, cost);
    }
    cheaper
}

// Whether an arc of any node has made a walk cheaper.
fn try_arcs(n: u64, source: u64, lists: &Lists, table: &mut Table) -> bool {
    let mut found = false;
    for v in 0..n {
        for arc in map::arcs(lists, v) {
            found |= try_arc(source, lists, table, v, arc);
        }
    }
    found
}

// The cheapest walk of one arc or more to each node; it has at most n arcs, so that n rounds find it.
fn walks(n: u64, source: u64, lists: &Lists, table: &mut Table) {
    nodes::fill(table, nodes::WALK, n, nodes::NONE);
    for _ in 0..n {
        if !try_arcs(n, source, lists, table) {
            return;
        }
    }
}

// What the cheapest walk to each node costs; the walk of no arc leads to the source.
pub fn cheapest(n: u64, source: u64, lists: &Lists, table: &mut Table) {
    walks(n, source, lists, table);
    nodes::set(table, nodes::WALK, source, 0);
}
