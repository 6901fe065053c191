// What a run is expected to give: its refusal, or by the references its numbers and a table of its nodes.
use test_reference_counts::recount;
use test_reference_map::case::{Case, Counts, Height};
use test_reference_map::map::Lists;
use test_reference_map::nodes::Table;
use test_reference_map::refusal::Refusal;
use test_reference_map::{nodes, words};
use test_reference_search::{dijkstra, refusals, walks};

// The differing nodes are those at which the references do not agree, of which there are none.
#[derive(Clone, Copy)]
pub struct Searched {
    pub counts: Counts,
    pub differing: u64,
}

pub type Expected = Result<Searched, Refusal>;

// What a call is refused for; 0 if it is accepted.
pub fn number_of<T: Drop>(expected: Result<T, Refusal>) -> u64 {
    expected.err().map_or(0, |refusal| refusal.number)
}

fn all_differing(n: u64, reached: u64, table: &Table) -> u64 {
    let distances = nodes::differing(table, nodes::DISTANCE, nodes::STEP_DISTANCE, n);
    let parents = nodes::differing(table, nodes::PARENT, nodes::STEP_PARENT, n);
    let order = nodes::differing(table, nodes::ORDER, nodes::STEP_ORDER, reached);
    let walks = nodes::differing(table, nodes::DISTANCE, nodes::WALK, n);
    words::sum(words::sum(distances, parents), words::sum(order, walks))
}

// The run with one level or with two; the table is filled where it is accepted.
pub fn run(height: Height, case: Case, lists: &Lists, table: &mut Table) -> Expected {
    refusals::check(Some(height), case, lists)?;
    let n = u64::from(case.nodes);
    let source = u64::from(case.source);
    let reached = dijkstra::search(n, source, lists, table);
    walks::cheapest(n, source, lists, table);
    let counts = recount::run(height, case, lists, table);
    Ok(Searched {
        counts: Counts { reached, ..counts },
        differing: all_differing(n, reached, table),
    })
}
