// The reader of road files beside the reference: the numbers of its answer, and every word of the lists lent, guards behind them included.
use dimacs::RoadSize;
use model::Fault;
use test_damage::damaged;
use test_generated::tallies::Found;
use test_generated::{lists, random};
use test_generated_roads::roads::Road;
use test_generated_roads::{rendering, roads};
use test_reference_files::printing::Text;
use test_reference_map::map::Lists;
use test_reference_map::refusal::Refusal;
use test_reference_map::{map, words};
use test_reference_roads::roadfile::{Lent, Size};
use test_reference_roads::{arcs, roadfile};

type Outcome = Result<Size, Refusal>;

type ByArc = [u32; 4096];

// An answer and the lists that it leaves.
#[derive(Drop)]
struct Answered {
    outcome: Outcome,
    starts: [u32; 4104],
    heads: ByArc,
    costs: ByArc,
}

fn outcome_of(answer: Result<RoadSize, Fault>) -> Outcome {
    match answer {
        Ok(size) => Ok(Size {
            nodes: u64::from(size.nodes),
            arcs: u64::from(size.arcs),
        }),
        Err(fault) => Err(Refusal {
            number: u64::from(fault.kind.number()),
            place: fault.place as u64,
        }),
    }
}

fn answer(road: Road, bytes: &[u8]) -> Answered {
    let mut starts = [lists::STARTS; 4104];
    let mut heads = [lists::HEADS; 4096];
    let mut costs = [lists::COSTS; 4096];
    let answer = dimacs::read(
        bytes,
        road.given,
        lists::front(&mut starts, road.starts),
        lists::front(&mut heads, road.heads),
        lists::front(&mut costs, road.costs),
    );
    Answered {
        outcome: outcome_of(answer),
        starts,
        heads,
        costs,
    }
}

fn expected(road: Road, bytes: &[u8], lists: &mut Lists) -> Outcome {
    let mut arcs = arcs::none_of::<arcs::ShortArc>();
    let lent = Lent {
        ceiling: u64::from(road.given),
        starts: u64::from(road.starts),
        heads: u64::from(road.heads),
        costs: u64::from(road.costs),
    };
    roadfile::read_of(bytes, lent, &mut arcs, lists)
}

// How many words of starts, and of heads and costs, are filled: none if the file is refused.
fn filled(outcome: Outcome) -> (u32, u32) {
    match outcome {
        Ok(Size { nodes, arcs }) => {
            let starts = words::sum(nodes, 1);
            ((starts % 4294967296) as u32, (arcs % 4294967296) as u32)
        }
        Err(_) => (0, 0),
    }
}

// How many words of the lists are not those of the map, or past them those that were there.
fn differing_words(outcome: Outcome, answered: Answered, lists: &Lists) -> u64 {
    let (starts, m) = filled(outcome);
    let filled = lists::part(lists, map::STARTS, starts);
    let in_starts = lists::not_words(&answered.starts, lists::STARTS, filled);
    let filled = lists::part(lists, map::HEADS, m);
    let in_heads = lists::not_words(&answered.heads, lists::HEADS, filled);
    let filled = lists::part(lists, map::COSTS, m);
    let in_costs = lists::not_words(&answered.costs, lists::COSTS, filled);
    words::sum(in_starts, words::sum(in_heads, in_costs))
}

fn compare(road: Road, file: Text) -> Found {
    let mut lists = [0u32; 139296];
    let input = file.written();
    let outcome = expected(road, input, &mut lists);
    let answered = answer(road, input);
    let in_answer = u64::from(outcome != answered.outcome);
    let in_words = differing_words(outcome, answered, &lists);
    Found {
        number: outcome.err().map_or(0, |refusal| refusal.number),
        differences: words::sum(in_answer, in_words),
    }
}

// What a line of a road file has, or what might stand in it.
const LIKELY: [u8; 6] = *b" \n\rcap";

fn damaged_road(road: Road, word: u64) -> Text {
    damaged(rendering::render(road).written(), &LIKELY, word, 0)
}

// A road file with numbers at edges, one damaged, and one of both, in turn.
fn try_damaged(number: u32) -> Found {
    let road = roads::draw(102, number);
    let word = random::seed(103, number);
    let second = random::next(random::next(random::next(random::next(word))));
    let edged = roads::with_edge(road, word);
    match number % 3 {
        0 => {
            let twice = roads::with_edge(edged, second);
            compare(twice, rendering::render(twice))
        }
        1 => compare(road, damaged_road(road, second)),
        _ => compare(edged, damaged_road(edged, second)),
    }
}

// The road file of a number: as it is to be, or damaged.
pub fn try_road(whole: bool, number: u32) -> Found {
    if whole {
        let road = roads::draw(101, number);
        return compare(road, rendering::render(road));
    }
    try_damaged(number)
}
