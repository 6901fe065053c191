// Dijkstra's search over arrays (document 01, "The search", with the holds of document 02, paper 2).
use test_reference_map::map::Lists;
use test_reference_map::nodes::Table;
use test_reference_map::{map, nodes, words};

// The labelled node of smallest distance, and of smallest number among equals.
fn nearest(n: u64, table: &Table) -> Option<u64> {
    (0..n)
        .filter(|v| nodes::get(table, nodes::MARK, *v) == nodes::LABELLED)
        .min_by_key(|v| nodes::get(table, nodes::DISTANCE, *v))
}

fn label(table: &mut Table, v: u64, distance: u64, parent: u64) {
    nodes::set(table, nodes::DISTANCE, v, distance);
    nodes::set(table, nodes::PARENT, v, parent);
    nodes::set(table, nodes::MARK, v, nodes::LABELLED);
}

// What a route has cost once it leaves node v: its distance, and its hold unless the route begins there.
fn leaving(source: u64, lists: &Lists, table: &Table, v: u64) -> u64 {
    let distance = nodes::get(table, nodes::DISTANCE, v);
    if v == source {
        return distance;
    }
    words::sum(distance, map::hold(lists, v))
}

// The head of an arc gets a distance that is strictly below its own, and this parent. The mark for none is above every distance.
fn relax(lists: &Lists, table: &mut Table, spent: u64, arc: u64) {
    let head = map::head(lists, arc);
    let distance = words::sum(spent, map::cost(lists, arc));
    if distance < nodes::get(table, nodes::DISTANCE, head) {
        label(table, head, distance, arc);
    }
}

// The arcs of a node in number order.
fn scan(source: u64, lists: &Lists, table: &mut Table, v: u64) {
    let spent = leaving(source, lists, table, v);
    for arc in map::arcs(lists, v) {
        relax(lists, table, spent, arc);
    }
}

// The source alone is labelled, at distance 0.
fn start(n: u64, source: u64, table: &mut Table) {
    nodes::fill(table, nodes::DISTANCE, n, nodes::NONE);
    nodes::fill(table, nodes::PARENT, n, nodes::NONE);
    nodes::fill(table, nodes::MARK, n, nodes::UNLABELLED);
    label(table, source, 0, nodes::NONE);
}

// Distances, parents and the order scanned; how many nodes are reached.
pub fn search(n: u64, source: u64, lists: &Lists, table: &mut Table) -> u64 {
    start(n, source, table);
    for scanned in 0..n {
        let Some(v) = nearest(n, table) else {
            return scanned;
        };
        nodes::set(table, nodes::MARK, v, nodes::SCANNED);
        nodes::set(table, nodes::ORDER, scanned, v);
        scan(source, lists, table, v);
    }
    n
}
