// Runs to a destination by both heaps beside references that share nothing with the planner (document 02, paper 7), on generated maps with
// holds by every rule in turn, and at the edge of every refusal. Each family gives a line: its name, its maps, and the differences found in
// the answers and in all eight lists. Behind them each number has a line: the runs for which it is the one to return, and the differences in
// them.
#![tactic(auto)]

use families::Family;
use std::io;
use test_generated::{maps, tallies};
use test_reference_map::nodes::Table;
use test_reference_map::words;

mod beside;
mod edges;
mod expected;
mod families;
mod trial;

fn print_family(rt: &impl Print, family: Family, name: &[u8], found: &mut Table) -> io::Result<()> {
    let mut differences = 0;
    for number in 0..family.count() {
        differences = words::sum(differences, trial::try_map(family, number, found));
    }
    rt.write_all(name)?;
    tallies::print_found(rt, u64::from(family.count()), differences)
}

const FAMILIES: [(Family, &[u8]); 15] = [
    (Family::Rule(maps::RANDOM), b"random"),
    (Family::Rule(maps::GRID), b"grids"),
    (Family::Rule(maps::CHAIN), b"chains"),
    (Family::Rule(maps::EQUAL_STAR), b"stars of equal arcs"),
    (Family::Rule(maps::DISTINCT_STAR), b"stars of distinct arcs"),
    (Family::Rule(maps::ZERO_COSTS), b"zero costs"),
    (Family::Rule(maps::TWO_PARTS), b"two parts"),
    (
        Family::Rule(maps::LOOPS_AND_PARALLELS),
        b"self-loops and parallel arcs",
    ),
    (Family::Rule(maps::ALL_DECREASES), b"every arc a decrease"),
    (Family::Rule(maps::NO_ARCS), b"m = 0"),
    (Family::Rule(maps::SAME_DEGREE), b"equal numbers of arcs"),
    (Family::FewHeads, b"many arcs to few nodes"),
    (Family::Segments, b"K = 2 to 64"),
    (Family::Large, b"up to 1024 nodes and 4096 arcs"),
    (Family::Edges, b"at the edges of refusals"),
];

fn main(rt: HostRuntime) -> io::Result<()> {
    let mut found = [0u64; 49152];
    for (family, name) in FAMILIES {
        print_family(&rt, family, name, &mut found)?;
    }
    tallies::print(&rt, &found)
}
