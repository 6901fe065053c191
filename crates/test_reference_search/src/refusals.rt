// What a call is refused for, in the order of document 01, "What a call returns", with 20 and the sums of 8 of document 02, paper 2. A run
// has one level or two; a route, which is lent no costs and no holds and of the lists by node the parents alone, has no heap.
use test_reference_map::case::{Case, Height};
use test_reference_map::map::Lists;
use test_reference_map::refusal::{Refusal, refuse};
use test_reference_map::{map, words};

// 6: the word of starts at i does not fit.
fn start_fault(n: u64, m: u64, lists: &Lists, i: u64) -> bool {
    let start = map::start(lists, i);
    let before = map::start(lists, words::minus(i, 1));
    let first = i == 0 && start != 0;
    let last = i == n && start != m;
    first || last || start < before || start > m
}

// The least place of a word above the most in a list of so many words.
fn first_above(lists: &Lists, list: u64, count: u64, most: u64) -> Option<u64> {
    (0..count).find(|i| map::get(lists, list, *i) > most)
}

// The tail of an arc, which is no node before the first; n if none of them has it.
pub fn tail_from(n: u64, lists: &Lists, first: u64, arc: u64) -> u64 {
    (first..n)
        .find(|v| arc < map::start(lists, words::sum(*v, 1)))
        .unwrap_or(n)
}

// 8: the least arc whose cost and its tail's hold together are above the most, the source's arcs included.
fn first_sum_above(n: u64, m: u64, lists: &Lists, most: u64) -> Option<u64> {
    let mut tail = 0;
    for arc in 0..m {
        tail = tail_from(n, lists, tail, arc);
        if words::sum(map::cost(lists, arc), map::hold(lists, tail)) > most {
            return Some(arc);
        }
    }
    None
}

// 1 to 4.
fn check_numbers(run: bool, case: Case) -> Result<(), Refusal> {
    let n = case.nodes;
    let m = case.heads;
    if n < 1 || n > 4096 {
        return refuse(1, 0);
    }
    if run && case.ceiling > 1048575 {
        return refuse(2, 0);
    }
    if case.source >= n {
        return refuse(3, 0);
    }
    if m > 65536 || run && m != case.costs {
        return refuse(4, 0);
    }
    Ok(())
}

// 5 and 6.
fn check_starts(case: Case, lists: &Lists) -> Result<(), Refusal> {
    let n = u64::from(case.nodes);
    let m = u64::from(case.heads);
    let words_of_starts = words::sum(n, 1);
    if u64::from(case.starts) != words_of_starts {
        return refuse(5, 0);
    }
    match (0..words_of_starts).find(|i| start_fault(n, m, lists, *i)) {
        Some(start) => refuse(6, start),
        None => Ok(()),
    }
}

// 20 of a run: holds not n words, or the least node whose hold is above the ceiling.
fn check_holds(height: Option<Height>, case: Case, lists: &Lists) -> Result<(), Refusal> {
    let n = u64::from(case.nodes);
    if height.is_none() {
        return Ok(());
    }
    if u64::from(case.holds) != n {
        return refuse(20, 0);
    }
    match first_above(lists, map::HOLDS, n, u64::from(case.ceiling)) {
        Some(node) => refuse(20, node),
        None => Ok(()),
    }
}

// 7.
fn check_heads(case: Case, lists: &Lists) -> Result<(), Refusal> {
    let n = u64::from(case.nodes);
    let m = u64::from(case.heads);
    match first_above(lists, map::HEADS, m, words::minus(n, 1)) {
        Some(arc) => refuse(7, arc),
        None => Ok(()),
    }
}

// 8 of a run.
fn check_sums(height: Option<Height>, case: Case, lists: &Lists) -> Result<(), Refusal> {
    let n = u64::from(case.nodes);
    let m = u64::from(case.costs);
    if height.is_none() {
        return Ok(());
    }
    match first_sum_above(n, m, lists, u64::from(case.ceiling)) {
        Some(arc) => refuse(8, arc),
        None => Ok(()),
    }
}

// The words that a run needs of the work list.
pub fn work_words(height: Height, nodes: u32) -> u64 {
    let by_node = words::product(4, u64::from(nodes));
    match height {
        Height::One => words::sum(by_node, 64),
        Height::Two => words::sum(by_node, 384),
    }
}

// 9 and 10.
pub fn check_lent(height: Option<Height>, case: Case) -> Result<(), Refusal> {
    let n = case.nodes;
    let run = height.is_some();
    if height == Some(Height::Two) && (case.segments < 2 || case.segments > 64) {
        return refuse(9, 0);
    }
    if run && case.distances < n {
        return refuse(10, 0);
    }
    if case.parents < n {
        return refuse(10, 1);
    }
    if run && case.roster < n {
        return refuse(10, 2);
    }
    if height.is_some_and(|height| u64::from(case.work) < work_words(height, n)) {
        return refuse(10, 3);
    }
    Ok(())
}

// The first of 1 to 6, 20 and 7, whatever is lent besides the map.
pub fn check_lists(height: Option<Height>, case: Case, lists: &Lists) -> Result<(), Refusal> {
    check_numbers(height.is_some(), case)?;
    check_starts(case, lists)?;
    check_holds(height, case, lists)?;
    check_heads(case, lists)
}

// The first of 1 to 6, 20, and 7 to 10.
pub fn check(height: Option<Height>, case: Case, lists: &Lists) -> Result<(), Refusal> {
    check_lists(height, case, lists)?;
    check_sums(height, case, lists)?;
    check_lent(height, case)
}
