// Trials: the map of a number, a run on it beside the references, and routes by the run's parents (document 01, "Edges").
use crate::expected::number_of;
use crate::families::Family;
use crate::{beside, damaged, expected, routes_beside};
use test_generated::tallies::Found;
use test_generated::{case, edges, holds, lists, maps, random};
use test_reference_map::case::{Case, Height};
use test_reference_map::map::Lists;
use test_reference_map::nodes::Table;
use test_reference_map::words;

// Routes by the parents of an accepted run.
fn try_routes(family: Family, case: Case, seed: u64, lists: &Lists, table: &mut Table) -> u64 {
    let damaged = family == Family::DamagedParents;
    if damaged {
        damaged::damage(case, seed, table);
    }
    let parents = damaged::parents_of(table);
    routes_beside::several(case, seed, damaged, lists, &parents, table)
}

// A run on the map of a number of a family with holds by a rule, then routes by its parents, which the table has too.
pub fn try_map(family: Family, rule: u32, height: Height, number: u32) -> Found {
    let mut lists = [lists::MAP; 139296];
    let mut table = [0u64; 49152];
    let map = family.map_of(number);
    let arcs = maps::fill(map, &mut lists);
    let sound = case::of_map(map, arcs, family.spare(number));
    let case = family.with_holds(rule, map, sound, &mut lists);
    let expected = expected::run(height, case, &lists, &mut table);
    let ran = beside::run(height, case, &lists);
    let run = beside::differences(height, case, expected, &ran, &table);
    let shape = family.shape_fault(rule, case, expected);
    let mut differences = words::sum(shape, run);
    if expected.is_ok() {
        let routes = try_routes(family, case, map.seed, &lists, &mut table);
        differences = words::sum(differences, routes);
    }
    Found {
        number: number_of(expected),
        differences,
    }
}

// The map of a number, with holds by one rule after the other, and its case.
fn small_case(number: u32, lists: &mut Lists) -> Case {
    let map = maps::small(maps::RANDOM, number.wrapping_add(200000));
    let arcs = maps::fill(map, lists);
    holds::fill(map, number % holds::RULES, map.ceiling, lists);
    case::of_map(map, arcs, number % 9)
}

// A small map with one or two edges in it.
fn with_edges(case: Case, number: u32, seed: u64, lists: &mut Lists) -> Case {
    let first = edges::refusal_of(number % 11);
    let word = random::next(seed);
    let second = random::below(word, 21);
    let third = random::next(word);
    let fourth = random::next(third);
    edges::words(case, first, third, lists);
    edges::words(case, second, fourth, lists);
    edges::numbers(edges::numbers(case, first, third), second, fourth)
}

// The run on a small map with edges in it.
pub fn try_edge(height: Height, number: u32) -> Found {
    let mut lists = [lists::MAP; 139296];
    let mut table = [0u64; 49152];
    let small = small_case(number, &mut lists);
    let case = with_edges(small, number, random::seed(99, number), &mut lists);
    let expected = expected::run(height, case, &lists, &mut table);
    let ran = beside::run(height, case, &lists);
    Found {
        number: number_of(expected),
        differences: beside::differences(height, case, expected, &ran, &table),
    }
}

// A destination at an edge or any node.
fn destination_of(case: Case, word: u64) -> u32 {
    match random::below(word, 8) {
        0 => case.nodes,
        1 => 4294967295,
        2 => case.source,
        _ => random::below(random::next(word), case.nodes),
    }
}

fn room_of(case: Case, word: u64) -> u32 {
    if random::below(word, 2) == 0 {
        return 4112;
    }
    random::below(random::next(word), case.nodes)
}

// A third of the cases have their map and numbers as they are.
fn route_case(case: Case, number: u32, seed: u64, lists: &mut Lists) -> Case {
    if number % 3 == 0 {
        return case;
    }
    with_edges(case, number, seed, lists)
}

// A route on a small map with edges in it. The parents are those of a run on the map without; every second table of them is damaged.
pub fn try_route_edge(number: u32) -> Found {
    let mut lists = [lists::MAP; 139296];
    let mut table = [0u64; 49152];
    let seed = random::seed(98, number);
    let small = small_case(number, &mut lists);
    let expected = expected::run(Height::One, small, &lists, &mut table);
    let ran = beside::run(Height::One, small, &lists);
    let run = beside::differences(Height::One, small, expected, &ran, &table);
    if number % 2 == 0 {
        damaged::damage(small, seed, &mut table);
    }
    let parents = damaged::parents_of(&table);
    let case = route_case(small, number, seed, &mut lists);
    let destination = destination_of(case, seed);
    let room = room_of(case, random::next(random::next(seed)));
    let found = routes_beside::route(case, destination, room, &lists, &parents, &mut table);
    Found {
        number: found.number,
        differences: words::sum(run, found.differences),
    }
}
