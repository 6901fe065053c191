// Both runs and routes beside references that share nothing with the planner (document 01, "Edges", and document 02, papers 2 and 3), on
// generated maps and at the edge of every refusal. Each family gives a line: its name, its maps, and the differences found. A family of
// maps gives another for its maps with holds, by seven rules in turn: any holds, what the arcs leave, the most at all nodes but the source
// or at the source, then any with the list's length, a hold or a sum at an edge. Then each number that a call returns has a line: the cases
// at an edge in which it is the one to return, and the differences in them.
#![tactic(auto)]

use families::Family;
use std::io;
use test_generated::tallies::Found;
use test_generated::{holds, tallies};
use test_reference_map::case::Height;
use test_reference_map::nodes::Table;
use test_reference_map::words;

mod beside;
mod damaged;
mod expected;
mod families;
mod routes_beside;
mod trials;

// The differences of a run; it is counted under its number if it is one at an edge.
fn count_if(edge: bool, one: Found, found: &mut Table) -> u64 {
    if edge {
        return tallies::count(found, one);
    }
    one.differences
}

// Both runs on one map with holds by a rule.
fn try_both(family: Family, rule: u32, number: u32, found: &mut Table) -> u64 {
    let edge = families::at_edge(rule);
    let one = trials::try_map(family, rule, Height::One, number);
    let two = trials::try_map(family, rule, Height::Two, number);
    words::sum(count_if(edge, one, found), count_if(edge, two, found))
}

fn try_both_edges(number: u32, found: &mut Table) -> u64 {
    let one = trials::try_edge(Height::One, number);
    let two = trials::try_edge(Height::Two, number);
    let differences = tallies::count(found, one);
    words::sum(differences, tallies::count(found, two))
}

// Routes by the parents of a run on a map with holds by one rule after the other.
fn try_damaged(number: u32) -> u64 {
    let rule = number % holds::RULES;
    let one = trials::try_map(Family::DamagedParents, rule, Height::One, number);
    one.differences
}

// One map of a family.
fn try_number(family: Family, number: u32, found: &mut Table) -> u64 {
    match family {
        Family::DamagedParents => try_damaged(number),
        Family::RunsAtEdges => try_both_edges(number, found),
        Family::RoutesAtEdges => tallies::count(found, trials::try_route_edge(number)),
        _ => try_both(family, holds::ZERO, number, found),
    }
}

fn try_family(family: Family, found: &mut Table) -> u64 {
    let mut differences = 0;
    for number in 0..family.count() {
        let more = try_number(family, number, found);
        differences = words::sum(differences, more);
    }
    differences
}

// So many maps of a family with holds.
fn try_holds(family: Family, count: u32, found: &mut Table) -> u64 {
    let mut differences = 0;
    for i in 0..count {
        let number = family.number_with_holds(i);
        let more = try_both(family, families::rule_of(i), number, found);
        differences = words::sum(differences, more);
    }
    differences
}

fn print_family(rt: &impl Print, family: Family, found: &mut Table) -> io::Result<()> {
    let differences = try_family(family, found);
    rt.write_all(family.name())?;
    tallies::print_found(rt, u64::from(family.count()), differences)?;
    if let Some(count) = family.count_with_holds() {
        let differences = try_holds(family, count, found);
        rt.write_all(family.name())?;
        rt.write_all(b" with holds")?;
        tallies::print_found(rt, u64::from(count), differences)?;
    }
    Ok(())
}

fn main(rt: HostRuntime) -> io::Result<()> {
    let mut found = [0u64; 49152];
    for family in Family::ALL {
        print_family(&rt, family, &mut found)?;
    }
    tallies::print(&rt, &found)
}
