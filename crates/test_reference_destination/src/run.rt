// A run to a destination by the references: its numbers, and a table of its nodes with the parents by their old numbers (document 02, paper
// 7).
use crate::reversed::OldArcs;
use crate::{reversed, spelled, walks};
use test_reference_counts::recount;
use test_reference_map::case::{Case, Counts, Height};
use test_reference_map::map::Lists;
use test_reference_map::nodes::Table;
use test_reference_map::{nodes, words};
use test_reference_search::dijkstra;

// The differing nodes are those at which the references do not agree, of which there are none.
#[derive(Clone, Copy)]
pub struct Searched {
    pub counts: Counts,
    pub differing: u64,
}

fn old_number(m: u64, old_arcs: &OldArcs, arc: u64) -> u64 {
    if arc < m {
        return words::word(old_arcs, arc);
    }
    arc
}

// Each parent of a row, where it is an arc, becomes its old number.
fn rename(case: Case, old_arcs: &OldArcs, table: &mut Table) {
    let n = u64::from(case.nodes);
    let m = u64::from(case.heads);
    for v in 0..n {
        let arc = nodes::get(table, nodes::PARENT, v);
        nodes::set(table, nodes::PARENT, v, old_number(m, old_arcs, arc));
    }
}

// Where the search and the steps differ, both on the reversed map.
fn differing_steps(n: u64, reached: u64, counts: Counts, table: &Table) -> u64 {
    let distances = nodes::differing(table, nodes::DISTANCE, nodes::STEP_DISTANCE, n);
    let parents = nodes::differing(table, nodes::PARENT, nodes::STEP_PARENT, n);
    let order = nodes::differing(table, nodes::ORDER, nodes::STEP_ORDER, reached);
    let scanned = words::sum(
        words::minus(reached, counts.reached),
        words::minus(counts.reached, reached),
    );
    words::sum(words::sum(distances, parents), words::sum(order, scanned))
}

// The run with one level or with two, of a case that is not refused; the reversed map and the table are filled.
pub fn run(
    height: Height,
    case: Case,
    lists: &Lists,
    reversed: &mut Lists,
    old_arcs: &mut OldArcs,
    table: &mut Table,
) -> Searched {
    let n = u64::from(case.nodes);
    let destination = u64::from(case.source);
    reversed::reverse(n, u64::from(case.heads), lists, reversed, old_arcs);
    let reached = dijkstra::search(n, destination, reversed, table);
    let counts = recount::run(height, case, reversed, table);
    let steps = differing_steps(n, reached, counts, table);
    rename(case, old_arcs, table);
    walks::cheapest(n, destination, lists, table);
    let walks = nodes::differing(table, nodes::DISTANCE, nodes::WALK, n);
    let routes = spelled::failing(case, lists, table);
    Searched {
        counts,
        differing: words::sum(steps, words::sum(walks, routes)),
    }
}
