// Trials: the map of a number, and both runs to its destination beside the references (document 02, paper 7).
use crate::families::Family;
use crate::{beside, edges, expected};
use test_generated::tallies::Found;
use test_generated::{lists, tallies};
use test_reference_destination::refusals::ReversedWords;
use test_reference_map::case::{Case, Height};
use test_reference_map::map::Lists;
use test_reference_map::nodes::Table;
use test_reference_map::words;

// The run with one level or with two, counted under its number; its differences.
fn try_run(
    height: Height,
    case: Case,
    lent: ReversedWords,
    lists: &Lists,
    found: &mut Table,
) -> u64 {
    let mut reversed = [lists::MAP; 139296];
    let mut old_arcs = [0u32; 65544];
    let mut table = [0u64; 49152];
    let expected = expected::run(
        height,
        case,
        lent,
        lists,
        &mut reversed,
        &mut old_arcs,
        &mut table,
    );
    let ran = beside::run(height, case, lent, lists);
    let differences = beside::differences(
        height, case, expected, &ran, &reversed, &old_arcs, &table,
    );
    let number = expected.err().map_or(0, |refusal| refusal.number);
    tallies::count(
        found,
        Found {
            number,
            differences,
        },
    )
}

// Each list has as many words more than it needs as the lists by node have.
fn lent_of(case: Case, number: u32) -> ReversedWords {
    let more = number % 9;
    let by_arc = case.heads.wrapping_add(more);
    ReversedWords {
        starts: case.starts.wrapping_add(more),
        heads: by_arc,
        costs: by_arc,
        old_arcs: by_arc,
    }
}

// Both runs to the destination of one map.
pub fn try_map(family: Family, number: u32, found: &mut Table) -> u64 {
    let mut lists = [lists::MAP; 139296];
    let sound = family.fill(number, &mut lists);
    let mut case = sound;
    let mut lent = lent_of(sound, number);
    if family == Family::Edges {
        let pair = edges::pair_of(number);
        case = edges::put(sound, pair, &mut lists);
        lent = edges::put_reversed(sound, lent, pair);
    }
    let one = try_run(Height::One, case, lent, &lists, found);
    words::sum(one, try_run(Height::Two, case, lent, &lists, found))
}
