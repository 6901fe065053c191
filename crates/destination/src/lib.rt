// Costs to a node, which is paper 7's charger: a run of the reversed map by either heap, whose arcs are told by their old numbers (document 02,
// paper 7).
#![tactic(auto)]

ghost use Rattle.std.specs.Prelude.{Ok};
ghost use Rattle.checks.specs.Given.{inputs_of};
ghost use Rattle.destination_checks.specs.Destination.{ReadyTo};
ghost use Rattle.destination.specs.Promise.{RanTo, PromisedTo, lent_to, lengths_to};

use checks::Given;
use model::{Fault, Run};
use theory::Levels;

// The run to a destination, of inputs and lists that have passed the checks: the reversed map is built and run on, and its arcs in the parents
// get their old numbers.
fn run_back<'a>(
    levels: Levels,
    given: Given<'a>,
    distances: &mut [u32],
    parents: &mut [u32],
    roster: &mut [u32],
    work: &mut [u32],
    reversed_starts: &mut [u32],
    reversed_heads: &mut [u32],
    reversed_costs: &mut [u32],
    old_arcs: &mut [u32],
) -> Run
    requires { ReadyTo levels (inputs_of given)
        (lengths_to (lent_to distances.old parents.old roster.old work.old reversed_starts.old reversed_heads.old reversed_costs.old
        old_arcs.old)) }
    ensures { RanTo levels (inputs_of given.entry) (Ok tt) (Ok result)
        (lent_to distances.old parents.old roster.old work.old reversed_starts.old reversed_heads.old
        reversed_costs.old old_arcs.old)
        (lent_to distances.new parents.new roster.new work.new reversed_starts.new reversed_heads.new
        reversed_costs.new old_arcs.new) }
{
    let nodes = given.nodes as usize;
    let arcs = given.heads.len();
    reversing::reverse(
        given.nodes,
        given.starts,
        given.heads,
        given.costs,
        reversed_starts,
        reversed_heads,
        reversed_costs,
        old_arcs,
    );
    let back = Given {
        starts: &reversed_starts[..nodes + 1],
        heads: &reversed_heads[..arcs],
        costs: &reversed_costs[..arcs],
        ..given
    };
    let run = runs::run_steps(levels, back, distances, parents, roster, work);
    reversing::rename(&mut parents[..nodes], &old_arcs[..arcs]);
    run
}

pub fn run_to<'a>(
    levels: Levels,
    given: Given<'a>,
    distances: &mut [u32],
    parents: &mut [u32],
    roster: &mut [u32],
    work: &mut [u32],
    reversed_starts: &mut [u32],
    reversed_heads: &mut [u32],
    reversed_costs: &mut [u32],
    old_arcs: &mut [u32],
) -> Result<Run, Fault>
    ensures { PromisedTo levels (inputs_of given.entry) result
        (lent_to distances.old parents.old roster.old work.old reversed_starts.old reversed_heads.old
        reversed_costs.old old_arcs.old)
        (lent_to distances.new parents.new roster.new work.new reversed_starts.new reversed_heads.new
        reversed_costs.new old_arcs.new) }
{
    destination_checks::run_check_to(
        levels,
        given,
        distances.len(),
        parents.len(),
        roster.len(),
        work.len(),
        reversed_starts.len(),
        reversed_heads.len(),
        reversed_costs.len(),
        old_arcs.len(),
    )?;
    Ok(run_back(
        levels,
        given,
        distances,
        parents,
        roster,
        work,
        reversed_starts,
        reversed_heads,
        reversed_costs,
        old_arcs,
    ))
}
