// The families of maps: how many each has, and the map of a number with its holds.
use crate::edges;
use test_generated::maps::Map;
use test_generated::{case, holds, maps, random};
use test_reference_map::case::Case;
use test_reference_map::map;
use test_reference_map::map::Lists;

// The maps of a rule of test_generated::maps, random ones of which all arcs lead to three nodes, or by each K, large ones, and ones at the
// edges of refusals.
#[derive(Clone, Copy, PartialEq, Eq)]
pub enum Family {
    Rule(u32),
    FewHeads,
    Segments,
    Large,
    Edges,
}

// By every rule for holds a long chain, a large grid, and many arcs at each of a few nodes and of very few.
fn large(number: u32) -> Map {
    let (rule, nodes, measure, source) = match number / 5 {
        0 => (maps::CHAIN, 1024, 1024, 1023),
        1 => (maps::GRID, 1024, 32, 0),
        2 => (maps::SAME_DEGREE, 64, 64, 0),
        _ => (maps::SAME_DEGREE, 4, 1024, 0),
    };
    Map {
        rule,
        nodes,
        measure,
        source,
        ceiling: 1048575,
        ..maps::small(maps::SAME_DEGREE, number)
    }
}

// In every second map the destination is the last node, to which most of the arcs of some rules lead.
fn small(rule: u32, number: u32) -> Map {
    let map = maps::small(rule, number.wrapping_add(700000));
    let source = match number % 2 {
        1 => map.nodes.saturating_sub(1),
        _ => map.source,
    };
    Map { source, ..map }
}

fn lead_to_few(arcs: u32, lists: &mut Lists) {
    for arc in 0..u64::from(arcs) {
        map::set(lists, map::HEADS, arc, map::head(lists, arc) % 3);
    }
}

// No arc costs more than its head's hold leaves of the ceiling and, if there are holds, one in eight just that. Many a map is then one that a
// run from a node refuses.
fn fit(case: Case, held: bool, seed: u64, lists: &mut Lists) {
    let mut word = seed;
    for arc in 0..u64::from(case.heads) {
        word = random::next(word);
        let left = u64::from(edges::left_at_head(case, lists, arc));
        let full = held && random::below(word, 8) == 0;
        let cost = if full {
            left
        } else {
            map::cost(lists, arc).min(left)
        };
        map::set(lists, map::COSTS, arc, cost);
    }
}

impl Family {
    // How many maps it has.
    pub fn count(self) -> u32 {
        match self {
            Family::Rule(_) | Family::FewHeads => 100,
            Family::Segments => 126,
            Family::Large => 20,
            Family::Edges => 2200,
        }
    }

    fn map_of(self, number: u32) -> Map {
        match self {
            Family::Rule(rule) => small(rule, number),
            Family::FewHeads => small(maps::RANDOM, number.wrapping_add(11000)),
            Family::Segments => Map {
                segments: number % 63 + 2,
                ..small(maps::RANDOM, number.wrapping_add(12000))
            },
            Family::Large => large(number),
            Family::Edges => small(maps::RANDOM, number.wrapping_add(14000)),
        }
    }

    // The map of a number in the lists; its case. The rules of test_generated::holds are taken in turn.
    pub fn fill(self, number: u32, lists: &mut Lists) -> Case {
        let map = self.map_of(number);
        let rule = number % holds::RULES;
        let arcs = maps::fill(map, lists);
        holds::fill(map, rule, map.ceiling, lists);
        if self == Family::FewHeads {
            lead_to_few(arcs, lists);
        }
        let case = case::of_map(map, arcs, number % 9);
        fit(case, rule != holds::ZERO, map.seed, lists);
        case
    }
}
