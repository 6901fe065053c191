// The checks of a run to a destination, in their order (document 02, paper 7). The destination is paper 7's charger.
#![tactic(auto)]

ghost use Rattle.std.specs.Prelude.{◌≡◌, get_or};
ghost use Rattle.check_sums.specs.Sums.{sums_check};
ghost use Rattle.checks.specs.Checks.{first_fault, lent_checks, summed_checks};
ghost use Rattle.checks.specs.Given.{inputs_of};
ghost use Rattle.destination_checks.specs.Destination.{head_sums_check, SummableTo, reversed_lists, checks_to, lengths_to_for};

use check_lists::limits::any_above;
use check_sums::greatest;
use checks::Given;
use model::{Fault, Kind};
use theory::Levels;

// One pass over the costs settles a map in which no cost is above what the greatest hold leaves; only in others are the heads looked up.
fn head_sums_check(ceiling: u32, heads: &[u32], costs: &[u32], holds: &[u32]) -> Result<(), Fault>
    requires { SummableTo ceiling heads.now costs.now holds.now }
    ensures { result ≡ sums_check ceiling (λ a. get_or heads.now a 0) costs.now holds.now }
{
    if any_above(ceiling - greatest(holds), costs) {
        least_head_sum(ceiling, heads, costs, holds)
    } else {
        Ok(())
    }
}

// No sum is formed, so none can wrap: a cost is held against what a hold leaves of the ceiling.
fn least_head_sum(ceiling: u32, heads: &[u32], costs: &[u32], holds: &[u32]) -> Result<(), Fault>
    requires { SummableTo ceiling heads.now costs.now holds.now }
    ensures { result ≡ sums_check ceiling (λ a. get_or heads.now a 0) costs.now holds.now }
{
    for arc in 0..costs.len() {
        let head = heads[arc] as usize;
        let rest = ceiling - holds[head];
        if costs[arc] > rest {
            return Err(Fault {
                kind: Kind::Cost,
                place: arc,
            });
        }
    }
    Ok(())
}

// As `checks::map_check`, with the holds of heads: sums are looked at only once the lists have passed, since a head is read as a node.
fn map_check<'a>(given: Given<'a>) -> Result<(), Fault>
    ensures { result ≡ first_fault (summed_checks (inputs_of given.entry) (head_sums_check (inputs_of given.entry))) }
{
    checks::lists_check(given)?;
    head_sums_check(given.ceiling, given.heads, given.costs, given.holds)
}

#[tactic(auto, unfolding(checks::specs::Checks::first_fault, checks::specs::Checks::lent_checks))]
fn reversed_lists_check(
    n: u32,
    arcs: usize,
    starts: usize,
    heads: usize,
    costs: usize,
    old_arcs: usize,
) -> Result<(), Fault>
    ensures { result ≡ first_fault (lent_checks 4 (reversed_lists n arcs starts heads costs old_arcs)) }
{
    check_numbers::lent_check(4, starts, n as usize + 1)?;
    check_numbers::lent_check(5, heads, arcs)?;
    check_numbers::lent_check(6, costs, arcs)?;
    check_numbers::lent_check(7, old_arcs, arcs)
}

// Not inlined: its frame is gone before the run begins, and together with the run it took an SSE register more than the header tells of.
#[inline(never)]
pub fn run_check_to<'a>(
    levels: Levels,
    given: Given<'a>,
    distances: usize,
    parents: usize,
    roster: usize,
    work: usize,
    reversed_starts: usize,
    reversed_heads: usize,
    reversed_costs: usize,
    old_arcs: usize,
) -> Result<(), Fault>
    ensures { result ≡ first_fault (checks_to levels (inputs_of given.entry)
        (lengths_to_for distances parents roster work reversed_starts reversed_heads reversed_costs old_arcs)) }
{
    map_check(given)?;
    checks::levels_check(levels)?;
    let needed = checks::work_words(levels, given.nodes);
    checks::run_lists_check(given.nodes, distances, parents, roster, work, needed)?;
    reversed_lists_check(
        given.nodes,
        given.heads.len(),
        reversed_starts,
        reversed_heads,
        reversed_costs,
        old_arcs,
    )
}
