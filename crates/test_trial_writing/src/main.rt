// Planning files written beside a plain writer that shares nothing with the planner, byte for byte, and read back, word for word (document
// 02, paper 5): of generated maps, without holds and with, and of maps at the edge of every refusal. Each map is written into a buffer with
// just enough bytes, into one with a byte less and into one with more. Each family gives a line: its name, its maps, and the differences
// found. Behind them each number has a line: the writes for which it is the one to return, and the differences in them.
#![tactic(auto)]

use families::Family;
use std::io;
use test_generated::{maps, tallies};
use test_reference_map::nodes::Table;
use test_reference_map::words;

mod families;
mod read_back;
mod trial;

fn print_family(
    rt: &impl Print,
    family: Family,
    name: &[u8],
    behind: &[u8],
    found: &mut Table,
) -> io::Result<()> {
    let mut differences = 0;
    for number in 0..family.count() {
        differences = words::sum(differences, trial::try_map(family, number, found));
    }
    rt.write_all(name)?;
    rt.write_all(behind)?;
    tallies::print_found(rt, u64::from(family.count()), differences)
}

const RULES: [(u32, &[u8]); 11] = [
    (maps::RANDOM, b"random"),
    (maps::GRID, b"grids"),
    (maps::CHAIN, b"chains"),
    (maps::EQUAL_STAR, b"stars of equal arcs"),
    (maps::DISTINCT_STAR, b"stars of distinct arcs"),
    (maps::ZERO_COSTS, b"zero costs"),
    (maps::TWO_PARTS, b"two parts"),
    (maps::LOOPS_AND_PARALLELS, b"self-loops and parallel arcs"),
    (maps::ALL_DECREASES, b"every arc a decrease"),
    (maps::NO_ARCS, b"m = 0"),
    (maps::SAME_DEGREE, b"equal numbers of arcs"),
];

fn main(rt: HostRuntime) -> io::Result<()> {
    let mut found = [0u64; 49152];
    for (rule, name) in RULES {
        print_family(&rt, Family::Rule(rule), name, b"", &mut found)?;
        let held = Family::RuleWithHolds(rule);
        print_family(&rt, held, name, b" with holds", &mut found)?;
    }
    let large = b"up to 4096 nodes and 65536 arcs";
    print_family(&rt, Family::Large, large, b"", &mut found)?;
    let edges = b"at the edges of refusals";
    print_family(&rt, Family::Edges, edges, b"", &mut found)?;
    tallies::print(&rt, &found)
}
