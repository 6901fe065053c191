// What a run to a destination is refused for: as a run, but for 8 with the hold of an arc's head, and 10 with four lists more (document 02,
// paper 7).
use test_reference_map::case::{Case, Height};
use test_reference_map::map::Lists;
use test_reference_map::refusal::{Refusal, refuse};
use test_reference_map::{map, words};
use test_reference_search::refusals;

// How many words are lent of each list of the reversed map.
#[derive(Clone, Copy)]
pub struct ReversedWords {
    pub starts: u32,
    pub heads: u32,
    pub costs: u32,
    pub old_arcs: u32,
}

// 8: the least arc whose cost and its head's hold together are above the ceiling, those to the destination included.
fn check_sums(case: Case, lists: &Lists) -> Result<(), Refusal> {
    let ceiling = u64::from(case.ceiling);
    for arc in 0..u64::from(case.heads) {
        let hold = map::hold(lists, map::head(lists, arc));
        if words::sum(map::cost(lists, arc), hold) > ceiling {
            return refuse(8, arc);
        }
    }
    Ok(())
}

// 10 of the lists of the reversed map.
fn check_reversed(case: Case, reversed: ReversedWords) -> Result<(), Refusal> {
    let m = case.heads;
    if reversed.starts <= case.nodes {
        return refuse(10, 4);
    }
    if reversed.heads < m {
        return refuse(10, 5);
    }
    if reversed.costs < m {
        return refuse(10, 6);
    }
    if reversed.old_arcs < m {
        return refuse(10, 7);
    }
    Ok(())
}

// The first of 1 to 6, 20, and 7 to 10.
pub fn check(
    height: Height,
    case: Case,
    reversed: ReversedWords,
    lists: &Lists,
) -> Result<(), Refusal> {
    refusals::check_lists(Some(height), case, lists)?;
    check_sums(case, lists)?;
    refusals::check_lent(Some(height), case)?;
    check_reversed(case, reversed)
}
