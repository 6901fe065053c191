// What a run to a destination is to give: its refusal, or by the references its numbers.
use test_reference_destination::refusals::ReversedWords;
use test_reference_destination::reversed::OldArcs;
use test_reference_destination::run::Searched;
use test_reference_destination::{refusals, run};
use test_reference_map::case::{Case, Height};
use test_reference_map::map::Lists;
use test_reference_map::nodes::Table;
use test_reference_map::refusal::Refusal;

pub type Expected = Result<Searched, Refusal>;

// The run with one level or with two; the reversed map and the table are filled where it is accepted.
pub fn run(
    height: Height,
    case: Case,
    lent: ReversedWords,
    lists: &Lists,
    reversed: &mut Lists,
    old_arcs: &mut OldArcs,
    table: &mut Table,
) -> Expected {
    refusals::check(height, case, lent, lists)?;
    Ok(run::run(height, case, lists, reversed, old_arcs, table))
}
