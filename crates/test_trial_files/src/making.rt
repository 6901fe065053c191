// The planning files (document 01, "Edges", and for those with holds document 02, paper 2).
use crate::rendering;
use crate::rendering::Ending;
use test_generated::maps::Map;
use test_generated::{case, edges, holds, lists, maps, random};
use test_reference_files::printing::Text;
use test_reference_map::case::Case;
use test_reference_map::map::Lists;
use test_reference_map::{map, words};

// The words that `plan` lends hold 512 nodes and 2,048 arcs.
fn at_edge_of_lists(case: Case, word: u64) -> Case {
    match random::below(word, 4) {
        0 => Case { nodes: 512, ..case },
        1 => Case { nodes: 513, ..case },
        2 => Case {
            heads: 2048,
            ..case
        },
        _ => Case {
            heads: 2049,
            ..case
        },
    }
}

// One or two numbers or words of the map are put to an edge.
fn with_edges(case: Case, refusal: u32, word: u64, lists: &mut Lists) -> Case {
    let second = random::next(word);
    if refusal == 10 {
        return at_edge_of_lists(case, word);
    }
    edges::words(case, refusal, word, lists);
    let changed = edges::numbers(case, refusal, word);
    edges::numbers(changed, random::below(second, 21), random::next(second))
}

// So long that the program takes a file just or not any more; most are not made longer.
fn least_length(number: u32) -> u64 {
    match number % 100 {
        7 => 65536,
        9 => 65537,
        _ => 0,
    }
}

fn damage(file: Text, first: u64, number: u32) -> Text {
    let word = random::seed(97, number);
    test_damage::damaged_from(
        file.written(),
        first,
        b",\n\r- 0",
        word,
        least_length(number),
    )
}

// The map's lists, with holds by a rule; its case.
fn fill(map: Map, rule: u32, lists: &mut Lists) -> Case {
    let arcs = maps::fill(map, lists);
    holds::fill(map, rule, map.ceiling, lists);
    case::of_map(map, arcs, 0)
}

// Five fields and a random map, with edges in it if they are asked for.
pub fn whole(number: u32, edged: bool) -> Text {
    let mut lists = [lists::MAP; 139296];
    let map = maps::small(maps::RANDOM, number.wrapping_add(300000));
    let mut case = fill(map, holds::ZERO, &mut lists);
    if edged {
        case = with_edges(case, number / 2 % 10 + 1, map.seed, &mut lists);
    }
    rendering::render(case, Ending::FiveFields, map.nodes, &lists).file
}

// Every second file has edges in it, the others are damaged.
pub fn damaged(number: u32) -> Text {
    if number % 2 == 0 {
        return whole(number, true);
    }
    damage(whole(number, false), 0, number)
}

// The kinds of map with holds: by a rule of test_generated::maps, or the largest that `plan` takes.
#[derive(Clone, Copy)]
enum Kind {
    Rule(u32),
    Largest,
}

const KINDS: u32 = 12;

// By each rule in turn, and last the largest.
fn kind_of(number: u32) -> Kind {
    match number % KINDS {
        maps::RULES => Kind::Largest,
        rule => Kind::Rule(rule),
    }
}

fn map_by_rule(rule: u32, number: u32) -> Map {
    let map = maps::small(rule, number.wrapping_add(400000));
    // Where the arcs lead on from node 0, so do the routes.
    let source = match rule {
        maps::CHAIN | maps::EQUAL_STAR | maps::DISTINCT_STAR | maps::ALL_DECREASES => 0,
        _ => map.source,
    };
    Map { source, ..map }
}

fn map_of(kind: Kind, number: u32) -> Map {
    match kind {
        Kind::Rule(rule) => map_by_rule(rule, number),
        Kind::Largest => Map {
            nodes: 512,
            measure: 4,
            ..maps::small(maps::SAME_DEGREE, number)
        },
    }
}

pub fn with_holds(number: u32) -> Text {
    let mut lists = [lists::MAP; 139296];
    let map = map_of(kind_of(number), number);
    let case = fill(map, number / KINDS % holds::RULES, &mut lists);
    rendering::render(case, Ending::SixFields, map.nodes, &lists).file
}

// The first arc of all or the last, the first of the source or its last, or any.
#[derive(Clone, Copy)]
enum EdgeArc {
    First,
    Last,
    FirstOfSource,
    LastOfSource,
    Any,
}

impl EdgeArc {
    const ALL: [EdgeArc; 5] = [
        EdgeArc::First,
        EdgeArc::Last,
        EdgeArc::FirstOfSource,
        EdgeArc::LastOfSource,
        EdgeArc::Any,
    ];
}

fn edge_arc(case: Case, which: EdgeArc, word: u64, lists: &Lists) -> u64 {
    let source = u64::from(case.source);
    match which {
        EdgeArc::First => 0,
        EdgeArc::Last => words::minus(u64::from(case.heads), 1),
        EdgeArc::FirstOfSource => map::start(lists, source),
        EdgeArc::LastOfSource => words::minus(map::start(lists, words::sum(source, 1)), 1),
        EdgeArc::Any => u64::from(random::below(word, case.heads)),
    }
}

// A cost with its tail's hold is the ceiling, or one more.
pub fn with_sum(number: u32) -> Text {
    let mut lists = [lists::MAP; 139296];
    let map = map_of(kind_of(number), number);
    let case = fill(map, number / 12 % 4 + 1, &mut lists);
    let arc = edge_arc(
        case,
        EdgeArc::ALL[(number / 48 % 5) as usize],
        map.seed,
        &lists,
    );
    edges::put_sum(case, arc, u64::from(number / 240 % 2), &mut lists);
    rendering::render(case, Ending::SixFields, map.nodes, &lists).file
}

// Every second map has a sum or a hold at an edge.
fn put_word(case: Case, word: u64, lists: &mut Lists) {
    match random::below(word, 4) {
        0 => edges::words(case, 8, random::next(word), lists),
        1 => edges::words(case, 20, random::next(word), lists),
        _ => (),
    }
}

// Too few lines of holds, too many, or none.
fn any_lines(case: Case, word: u64) -> Case {
    let lines = case.holds;
    Case {
        holds: edges::one_of(word, 0, edges::before(lines), edges::after(lines)),
        ..case
    }
}

// What is wrong with a file with holds: words and numbers at an edge, bytes or lines anywhere or among the lines of the holds, how many of
// these there are, or line 1's ending.
#[derive(Clone, Copy)]
enum Fault {
    Edged,
    Anywhere,
    InHolds,
    Lines,
    Ending,
}

fn fault_of(number: u32) -> Fault {
    match number % 5 {
        0 => Fault::Edged,
        1 => Fault::Anywhere,
        2 => Fault::InHolds,
        3 => Fault::Lines,
        _ => Fault::Ending,
    }
}

fn faulty_case(case: Case, fault: Fault, number: u32, word: u64, lists: &mut Lists) -> Case {
    if let Fault::Edged = fault {
        let refusal = edges::refusal_of((number % 11 + number / 11 % 11) % 11);
        return with_edges(case, refusal, word, lists);
    }
    put_word(case, word, lists);
    match fault {
        Fault::Lines => any_lines(case, random::next(word)),
        _ => case,
    }
}

fn any_ending(word: u64) -> Ending {
    match random::below(word, 6) {
        0 => Ending::FiveFields,
        1 => Ending::SixFields,
        2 => Ending::Zero,
        3 => Ending::Two,
        4 => Ending::LeadingZero,
        _ => Ending::SevenFields,
    }
}

pub fn damaged_with_holds(number: u32) -> Text {
    let mut lists = [lists::MAP; 139296];
    let fault = fault_of(number);
    let i = number / 5;
    let word = random::seed(96, number);
    let map = map_by_rule(i % maps::RULES, number);
    let whole = fill(map, i / 11 % holds::RULES, &mut lists);
    let case = faulty_case(whole, fault, i, word, &mut lists);
    let ending = match fault {
        Fault::Ending => any_ending(random::next(word)),
        _ => Ending::SixFields,
    };
    let made = rendering::render(case, ending, map.nodes, &lists);
    match fault {
        Fault::Anywhere => damage(made.file, 0, i % 10000 + 10000),
        Fault::InHolds => damage(made.file, made.holds, i % 10000 + 20000),
        _ => made.file,
    }
}
