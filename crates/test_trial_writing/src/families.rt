// The families of maps: how many each has, and the map of a number with its holds.
use test_generated::maps::Map;
use test_generated::{case, edges, holds, maps, random};
use test_reference_map::case::Case;
use test_reference_map::map::Lists;

// The maps of a rule of test_generated::maps, without holds or with, large ones, and small ones at the edges of refusals.
#[derive(Clone, Copy)]
pub enum Family {
    Rule(u32),
    RuleWithHolds(u32),
    Large,
    Edges,
}

// Every fourth of the large maps has the most nodes and arcs, the others have any number of nodes.
fn large(number: u32) -> Map {
    let map = maps::small(maps::RANDOM, number);
    if number % 4 == 0 {
        return Map {
            rule: maps::SAME_DEGREE,
            nodes: 4096,
            source: 4095,
            measure: 16,
            ceiling: 1048575,
            ..map
        };
    }
    let nodes = random::below(map.seed, 4096) % 4096 + 1;
    Map {
        nodes,
        source: random::below(random::next(map.seed), nodes),
        measure: random::below(random::next(map.seed), 15) % 15 + 1,
        ..map
    }
}

impl Family {
    pub fn count(self) -> u32 {
        match self {
            Family::Rule(_) | Family::RuleWithHolds(_) => 200,
            Family::Large => 20,
            Family::Edges => 4000,
        }
    }

    fn map_of(self, number: u32) -> Map {
        match self {
            Family::Rule(rule) | Family::RuleWithHolds(rule) => {
                maps::small(rule, number.wrapping_add(600000))
            }
            Family::Large => large(number),
            Family::Edges => maps::small(maps::RANDOM, number.wrapping_add(500000)),
        }
    }

    // The rules of test_generated::holds in turn; for the maps with holds, those behind the one that gives none.
    fn rule_of_holds(self, number: u32) -> u32 {
        match self {
            Family::Rule(_) => holds::ZERO,
            Family::RuleWithHolds(_) => number % 4 + 1,
            Family::Large | Family::Edges => number % holds::RULES,
        }
    }

    // The map of a number in the lists; its case.
    pub fn fill(self, number: u32, lists: &mut Lists) -> Case {
        let map = self.map_of(number);
        let arcs = maps::fill(map, lists);
        holds::fill(map, self.rule_of_holds(number), map.ceiling, lists);
        let case = case::of_map(map, arcs, 0);
        match self {
            Family::Edges => with_edges(case, number, lists),
            _ => case,
        }
    }
}

// No list of nodes is lent to the writer, and every room is tried for its buffer: 20 stands in for 10.
fn without_10(refusal: u32) -> u32 {
    match refusal {
        10 => 20,
        _ => refusal,
    }
}

// One or two numbers or words of the map are put to an edge.
fn with_edges(case: Case, number: u32, lists: &mut Lists) -> Case {
    let word = random::seed(104, number);
    let first = without_10(number % 10 + 1);
    let second = without_10(random::below(word, 20));
    let third = random::next(word);
    let fourth = random::next(third);
    edges::words(case, first, third, lists);
    edges::words(case, second, fourth, lists);
    edges::numbers(edges::numbers(case, first, third), second, fourth)
}
