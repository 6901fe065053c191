// A run beside the references: its answer, and every word of the lists lent to it (document 01, "What the planner holds and leaves out").
use crate::expected::{Expected, Searched};
use checks::Given;
use model::{Fault, Node, Run};
use test_generated::{answers, lists};
use test_reference_map::case::{Case, Height};
use test_reference_map::map::Lists;
use test_reference_map::nodes::Table;
use test_reference_map::{map, nodes, words};
use test_reference_search::refusals;
use theory::Levels;

// Words for the nodes, past the most that a call is lent.
pub type ByNode = [u32; 4112];

// The lists lent to a run.
#[derive(Drop)]
struct Lent {
    distances: ByNode,
    parents: ByNode,
    roster: ByNode,
    work: [u32; 16784],
}

// What a run has answered, and the lists lent to it.
#[derive(Drop)]
pub struct Ran {
    answer: Result<Run, Fault>,
    lent: Lent,
}

// The run with one level or with two; as many words of each list are lent as the case says.
fn answer_of(height: Height, case: Case, lists: &Lists, lent: &mut Lent) -> Result<Run, Fault> {
    let given = Given {
        nodes: case.nodes,
        ceiling: case.ceiling,
        source: Node(case.source),
        starts: lists::part(lists, map::STARTS, case.starts),
        heads: lists::part(lists, map::HEADS, case.heads),
        costs: lists::part(lists, map::COSTS, case.costs),
        holds: lists::part(lists, map::HOLDS, case.holds),
    };
    let distances = lists::front(&mut lent.distances, case.distances);
    let parents = lists::front(&mut lent.parents, case.parents);
    let roster = lists::front(&mut lent.roster, case.roster);
    let work = lists::front(&mut lent.work, case.work);
    let kind = match height {
        Height::One => Levels::One,
        Height::Two => Levels::Two {
            segments: case.segments,
        },
    };
    runs::run(kind, given, distances, parents, roster, work)
}

pub fn run(height: Height, case: Case, lists: &Lists) -> Ran {
    let mut lent = Lent {
        distances: [lists::DISTANCES; 4112],
        parents: [lists::PARENTS; 4112],
        roster: [lists::ROSTER; 4112],
        work: [lists::WORK; 16784],
    };
    let answer = answer_of(height, case, lists, &mut lent);
    Ran { answer, lent }
}

// How many words are not as the run is to leave them, where so many are filled: the roster is in the order scanned.
fn differing_words(n: u64, reached: u64, cleared: u64, lent: &Lent, table: &Table) -> u64 {
    let in_distances = lists::not_row(&lent.distances, lists::DISTANCES, table, nodes::DISTANCE, n);
    let in_parents = lists::not_row(&lent.parents, lists::PARENTS, table, nodes::PARENT, n);
    let in_roster = lists::not_row(&lent.roster, lists::ROSTER, table, nodes::ORDER, reached);
    let in_work = lists::not_row(&lent.work, lists::WORK, table, lists::CLEARED, cleared);
    words::sum(
        words::sum(in_distances, in_parents),
        words::sum(in_roster, in_work),
    )
}

// How many numbers and words of a run are not as they are expected, with the table that the references have left. A refusal fills no word.
pub fn differences(
    height: Height,
    case: Case,
    expected: Expected,
    ran: &Ran,
    table: &Table,
) -> u64 {
    let counted = expected.map(|searched| searched.counts);
    let numbers = answers::differing_numbers(ran.answer, counted);
    let lent = &ran.lent;
    match expected {
        Ok(Searched { counts, differing }) => {
            let n = u64::from(case.nodes);
            let cleared = refusals::work_words(height, case.nodes);
            let in_lists = differing_words(n, counts.reached, cleared, lent, table);
            words::sum(words::sum(numbers, differing), in_lists)
        }
        Err(_) => words::sum(numbers, differing_words(0, 0, 0, lent, table)),
    }
}
