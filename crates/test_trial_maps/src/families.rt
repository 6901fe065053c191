// The families of maps: how many each has, the numbers of each map (document 01, "Edges"), and its holds (document 02, paper 2).
use crate::expected::Expected;
use test_generated::maps::Map;
use test_generated::{edges, holds, lists, maps, random};
use test_reference_map::case::Case;
use test_reference_map::map::Lists;
use test_reference_map::words;

#[derive(Clone, Copy, PartialEq, Eq)]
pub enum Family {
    Random,
    Grids,
    Chains,
    EqualStars,
    DistinctStars,
    ZeroCosts,
    TwoParts,
    LoopsAndParallels,
    AllDecreases,
    OneNode,
    NoArcs,
    Ceilings,
    Segments,
    MostNodes,
    MostArcs,
    DamagedParents,
    RunsAtEdges,
    RoutesAtEdges,
}

// Behind the rules of test_generated::holds: any holds, and at an edge the length of their list, one of them, or by rule 7 the sum of an
// arc.
const LENGTH_AT_EDGE: u32 = 5;

const HOLD_AT_EDGE: u32 = 6;

impl Family {
    pub const ALL: [Family; 18] = [
        Family::Random,
        Family::Grids,
        Family::Chains,
        Family::EqualStars,
        Family::DistinctStars,
        Family::ZeroCosts,
        Family::TwoParts,
        Family::LoopsAndParallels,
        Family::AllDecreases,
        Family::OneNode,
        Family::NoArcs,
        Family::Ceilings,
        Family::Segments,
        Family::MostNodes,
        Family::MostArcs,
        Family::DamagedParents,
        Family::RunsAtEdges,
        Family::RoutesAtEdges,
    ];

    pub fn name(self) -> &'static [u8] {
        match self {
            Family::Random => b"random",
            Family::Grids => b"grids",
            Family::Chains => b"chains to the last bucket",
            Family::EqualStars => b"stars of equal arcs",
            Family::DistinctStars => b"stars of distinct arcs",
            Family::ZeroCosts => b"zero costs",
            Family::TwoParts => b"two parts",
            Family::LoopsAndParallels => b"self-loops and parallel arcs",
            Family::AllDecreases => b"every arc a decrease",
            Family::OneNode => b"n = 1",
            Family::NoArcs => b"m = 0",
            Family::Ceilings => b"C = 0 1 7 8 1048575",
            Family::Segments => b"K = 2 to 64",
            Family::MostNodes => b"n = 4096",
            Family::MostArcs => b"m = 65536",
            Family::DamagedParents => b"routes over damaged parents",
            Family::RunsAtEdges => b"runs at the edges of refusals",
            Family::RoutesAtEdges => b"routes at the edges of refusals",
        }
    }

    // How many maps it has.
    pub fn count(self) -> u32 {
        match self {
            Family::Random => 1500,
            Family::Grids | Family::Chains => 200,
            Family::EqualStars | Family::DistinctStars => 100,
            Family::ZeroCosts | Family::TwoParts | Family::LoopsAndParallels => 200,
            Family::AllDecreases => 50,
            Family::OneNode | Family::NoArcs => 63,
            Family::Ceilings => 250,
            Family::Segments => 252,
            Family::MostNodes | Family::MostArcs => 4,
            Family::DamagedParents => 500,
            Family::RunsAtEdges | Family::RoutesAtEdges => 2000,
        }
    }

    // How many of them have holds besides: each one, and each of the few large ones by every rule. A family of routes or of edges has none.
    pub fn count_with_holds(self) -> Option<u32> {
        match self {
            Family::MostNodes | Family::MostArcs => Some(28),
            Family::DamagedParents | Family::RunsAtEdges | Family::RoutesAtEdges => None,
            _ => Some(self.count()),
        }
    }

    pub fn number_with_holds(self, i: u32) -> u32 {
        match self {
            Family::MostNodes | Family::MostArcs => i / 7,
            _ => i,
        }
    }

    // How many words more each list has than a run on a map needs.
    pub fn spare(self, number: u32) -> u32 {
        match self {
            Family::DamagedParents => 3,
            _ => number % 9,
        }
    }

    // The map of a number.
    pub fn map_of(self, number: u32) -> Map {
        match self {
            Family::Grids => maps::small(maps::GRID, number),
            Family::Chains => chain(number),
            Family::EqualStars => from_first(maps::EQUAL_STAR, number),
            Family::DistinctStars => from_first(maps::DISTINCT_STAR, number),
            Family::ZeroCosts => maps::small(maps::ZERO_COSTS, number),
            Family::TwoParts => maps::small(maps::TWO_PARTS, number),
            Family::LoopsAndParallels => maps::small(maps::LOOPS_AND_PARALLELS, number),
            Family::AllDecreases => all_decreases(number),
            Family::OneNode => one_node(number),
            Family::NoArcs => maps::small(maps::NO_ARCS, number),
            Family::Ceilings => with_ceiling(number),
            Family::Segments => with_segments(number),
            Family::MostNodes => most_nodes(number),
            Family::MostArcs => most_arcs(number),
            Family::DamagedParents => maps::small(maps::RANDOM, number.wrapping_add(100000)),
            Family::Random | Family::RunsAtEdges | Family::RoutesAtEdges => {
                maps::small(maps::RANDOM, number)
            }
        }
    }

    // The most that a hold may be. Where every arc is a decrease it is below the factor of the costs, and then every arc still is one.
    fn most_hold(self, map: Map) -> u32 {
        match self {
            Family::AllDecreases => map.measure.saturating_sub(1),
            _ => map.ceiling,
        }
    }

    // The case of a map with holds by a rule.
    pub fn with_holds(self, rule: u32, map: Map, case: Case, lists: &mut Lists) -> Case {
        let word = random::next(map.seed);
        let most = self.most_hold(map);
        if rule < holds::RULES {
            holds::fill(map, rule, most, lists);
            return case;
        }
        holds::fill(map, holds::ANY, most, lists);
        match rule {
            LENGTH_AT_EDGE => edges::numbers(case, 20, word),
            HOLD_AT_EDGE => with_word(case, 20, word, lists),
            _ => with_word(case, 8, word, lists),
        }
    }

    // 1 if a run is not what its family is for: a removal uses bucket B of a chain's heap, and of the maps whose arcs are all decreases only
    // the first arc to each node is none.
    pub fn shape_fault(self, rule: u32, case: Case, expected: Expected) -> u64 {
        if at_edge(rule) {
            return 0;
        }
        match (self, expected) {
            (Family::Chains, Ok(run)) => lists::differ(run.counts.highest, run.counts.buckets),
            (Family::AllDecreases, Ok(run)) => lists::differ(
                words::sum(run.counts.decreases, run.counts.reached),
                words::sum(u64::from(case.heads), 1),
            ),
            (Family::Chains | Family::AllDecreases, Err(_)) => 1,
            _ => 0,
        }
    }
}

// The seven rules in turn, behind the one that gives no hold.
pub fn rule_of(i: u32) -> u32 {
    (i % 7 + i / 7 % 7) % 7 + 1
}

// The ceilings named in document 01.
fn edge_ceiling(number: u32) -> u32 {
    match number % 5 {
        0 => 0,
        1 => 1,
        2 => 7,
        3 => 8,
        _ => 1048575,
    }
}

// A chain so long that its last keys stand in bucket B of both heaps: above u(B - 1), which is below (K + 2)C, where no cost is below 3C / 4.
fn chain(number: u32) -> Map {
    let map = from_first(maps::CHAIN, number);
    let more = random::below(map.seed, 16) % 16;
    let segments = map.segments % 65;
    Map {
        nodes: 2 * segments + 8 + more,
        ceiling: map.ceiling.max(4),
        ..map
    }
}

// From node 0 on, and numbered.
fn from_first(rule: u32, number: u32) -> Map {
    let map = maps::small(rule, number);
    let ceiling = match rule {
        maps::DISTINCT_STAR => map.nodes,
        _ => map.ceiling,
    };
    Map {
        ceiling,
        source: 0,
        measure: number,
        ..map
    }
}

// 2 to 50 nodes, and last the most that have no more than 65,536 arcs. The costs grow with the nodes, and with a hold below their factor
// none is above the ceiling.
fn all_decreases(number: u32) -> Map {
    let (nodes, measure) = match number % 50 {
        49 => (362, 1452),
        size => (size + 2, size * 200 + 1),
    };
    Map {
        nodes,
        measure,
        source: 0,
        ceiling: 1048575,
        ..maps::small(maps::ALL_DECREASES, number)
    }
}

fn one_node(number: u32) -> Map {
    Map {
        nodes: 1,
        source: 0,
        ..with_segments(number)
    }
}

// Random maps of a ceiling or of a K.
fn with_ceiling(number: u32) -> Map {
    Map {
        ceiling: edge_ceiling(number),
        ..maps::small(maps::RANDOM, number)
    }
}

fn with_segments(number: u32) -> Map {
    Map {
        segments: number % 63 + 2,
        ..maps::small(maps::RANDOM, number)
    }
}

// A map of 4,096 nodes and the largest costs: a chain, whose last distance is the largest of all, then others.
fn most_nodes(number: u32) -> Map {
    let (rule, measure) = match number {
        0 => (maps::CHAIN, 64),
        1 => (maps::GRID, 64),
        2 => (maps::EQUAL_STAR, 64),
        3 => (maps::RANDOM, 4),
        _ => (maps::RANDOM, 64),
    };
    Map {
        rule,
        measure,
        nodes: 4096,
        ceiling: 1048575,
        source: 0,
        ..maps::small(maps::CHAIN, number)
    }
}

// A map of 65,536 arcs: the fewer nodes, the more arcs at each.
fn most_arcs(number: u32) -> Map {
    let (nodes, measure) = match number {
        0 => (64, 1024),
        1 => (256, 256),
        2 => (1024, 64),
        _ => (4096, 16),
    };
    Map {
        nodes,
        measure,
        source: 0,
        ceiling: edge_ceiling(number % 5 + 1),
        ..maps::small(maps::SAME_DEGREE, number)
    }
}

fn with_word(case: Case, refusal: u32, word: u64, lists: &mut Lists) -> Case {
    edges::words(case, refusal, word, lists);
    case
}

// Whether a rule puts the map to an edge.
pub fn at_edge(rule: u32) -> bool {
    rule >= LENGTH_AT_EDGE
}
