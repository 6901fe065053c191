// A run to a destination beside the references: its answer, and every word of the eight lists lent to it (document 02, paper 7).
use crate::expected::Expected;
use checks::Given;
use model::{Fault, Node, Run};
use test_generated::{answers, lists};
use test_reference_destination::refusals::ReversedWords;
use test_reference_destination::reversed::OldArcs;
use test_reference_destination::run::Searched;
use test_reference_map::case::{Case, Height};
use test_reference_map::map::Lists;
use test_reference_map::nodes::Table;
use test_reference_map::{map, nodes, words};
use test_reference_search::refusals;
use theory::Levels;

// Words for the nodes or arcs, past the most that a run is lent.
type List = [u32; 4112];

// The lists lent to a run.
#[derive(Clone, Copy)]
struct Lent {
    distances: List,
    parents: List,
    roster: List,
    work: [u32; 16784],
    starts: List,
    heads: List,
    costs: List,
    old_arcs: List,
}

// What a run has answered, and the lists lent to it.
#[derive(Clone, Copy)]
pub struct Ran {
    answer: Result<Run, Fault>,
    lent: Lent,
}

// The run with one level or with two; as many words of each list are lent as the case says.
fn answer_of(
    height: Height,
    case: Case,
    room: ReversedWords,
    lists: &Lists,
    lent: &mut Lent,
) -> Result<Run, Fault> {
    let given = Given {
        nodes: case.nodes,
        ceiling: case.ceiling,
        source: Node(case.source),
        starts: lists::part(lists, map::STARTS, case.starts),
        heads: lists::part(lists, map::HEADS, case.heads),
        costs: lists::part(lists, map::COSTS, case.costs),
        holds: lists::part(lists, map::HOLDS, case.holds),
    };
    let distances = lists::front(&mut lent.distances, case.distances);
    let parents = lists::front(&mut lent.parents, case.parents);
    let roster = lists::front(&mut lent.roster, case.roster);
    let work = lists::front(&mut lent.work, case.work);
    let starts = lists::front(&mut lent.starts, room.starts);
    let heads = lists::front(&mut lent.heads, room.heads);
    let costs = lists::front(&mut lent.costs, room.costs);
    let old_arcs = lists::front(&mut lent.old_arcs, room.old_arcs);
    let kind = match height {
        Height::One => Levels::One,
        Height::Two => Levels::Two {
            segments: case.segments,
        },
    };
    destination::run_to(
        kind, given, distances, parents, roster, work, starts, heads, costs, old_arcs,
    )
}

pub fn run(height: Height, case: Case, room: ReversedWords, lists: &Lists) -> Ran {
    let mut lent = Lent {
        distances: [lists::DISTANCES; 4112],
        parents: [lists::PARENTS; 4112],
        roster: [lists::ROSTER; 4112],
        work: [lists::WORK; 16784],
        starts: [lists::STARTS; 4112],
        heads: [lists::HEADS; 4112],
        costs: [lists::COSTS; 4112],
        old_arcs: [lists::OLD_ARCS; 4112],
    };
    let answer = answer_of(height, case, room, lists, &mut lent);
    Ran { answer, lent }
}

// How many words of the lists of a run are not as they are to be, where so many nodes have words.
fn differing_run(n: u64, reached: u64, cleared: u64, lent: &Lent, table: &Table) -> u64 {
    let in_distances = lists::not_row(&lent.distances, lists::DISTANCES, table, nodes::DISTANCE, n);
    let in_parents = lists::not_row(&lent.parents, lists::PARENTS, table, nodes::PARENT, n);
    let in_roster = lists::not_row(&lent.roster, lists::ROSTER, table, nodes::ORDER, reached);
    let in_work = lists::not_row(&lent.work, lists::WORK, table, lists::CLEARED, cleared);
    words::sum(
        words::sum(in_distances, in_parents),
        words::sum(in_roster, in_work),
    )
}

// The same of the reversed map's lists, where so many starts and arcs have words.
fn differing_map(starts: u32, arcs: u32, lent: &Lent, reversed: &Lists, old_arcs: &OldArcs) -> u64 {
    let of_map = lists::part(reversed, map::STARTS, starts);
    let in_starts = lists::not_words(&lent.starts, lists::STARTS, of_map);
    let of_map = lists::part(reversed, map::HEADS, arcs);
    let in_heads = lists::not_words(&lent.heads, lists::HEADS, of_map);
    let of_map = lists::part(reversed, map::COSTS, arcs);
    let in_costs = lists::not_words(&lent.costs, lists::COSTS, of_map);
    let of_map = lists::part(old_arcs, 0, arcs);
    let in_old_arcs = lists::not_words(&lent.old_arcs, lists::OLD_ARCS, of_map);
    words::sum(
        words::sum(in_starts, in_heads),
        words::sum(in_costs, in_old_arcs),
    )
}

// How many numbers and words of a run are not as they are expected, with what the references have left. A refusal fills no word.
pub fn differences(
    height: Height,
    case: Case,
    expected: Expected,
    ran: &Ran,
    reversed: &Lists,
    old_arcs: &OldArcs,
    table: &Table,
) -> u64 {
    let counted = expected.map(|searched| searched.counts);
    let numbers = answers::differing_numbers(ran.answer, counted);
    let lent = &ran.lent;
    match expected {
        Ok(Searched { counts, differing }) => {
            let n = case.nodes;
            let cleared = refusals::work_words(height, n);
            let in_map = differing_map(n.wrapping_add(1), case.heads, lent, reversed, old_arcs);
            let in_run = differing_run(u64::from(n), counts.reached, cleared, lent, table);
            words::sum(words::sum(numbers, differing), words::sum(in_map, in_run))
        }
        Err(_) => {
            let in_map = differing_map(0, 0, lent, reversed, old_arcs);
            let in_run = differing_run(0, 0, 0, lent, table);
            words::sum(numbers, words::sum(in_map, in_run))
        }
    }
}
