// From the bytes of a planning file to the bytes that `plan` prints (document 01, "Planning file").
#![tactic(auto)]

ghost use Rattle.std.specs.Prelude.{◌≡◌, ◌+◌, ◌*◌, ◌≤◌, length};
ghost use Rattle.fields.specs.Writing.{Writes};
ghost use Rattle.planning.specs.Planning.{plan_lists, PlanningPromised, PlanLends, runs_text, map_inputs, BothRunnable, BothReturned, BothRun};

use checks::Given;
use model::{Fault, Kind, Run};
use reader::PlanHeader;
use theory::Levels;

// What both runs have given back.
#[derive(Clone, Copy, Debug, PartialEq, Eq)]
pub struct BothRuns {
    pub one: Run,
    pub two: Run,
}

// A run's refusal would be told too, though none can come.
fn write_runs(
    output: &mut [u8],
    nodes: u32,
    arcs: u32,
    runs: Result<BothRuns, Fault>,
    distances: &[u32],
    parents: &[u32],
) -> usize
    requires nodes_in_bounds { 512 + 64 * nodes ≤ length output.old }
    requires lists_hold_nodes { (nodes ≤ length distances.now) × (nodes ≤ length parents.now) }
    ensures { Writes 0 (runs_text nodes arcs runs distances.now parents.now)
        output.old output.new result }
{
    match runs {
        Ok(both) => report::write_answer(
            output, nodes, arcs, both.one, both.two, distances, parents,
        ),
        Err(refused) => report::write_refusal(output, refused),
    }
}

// Both runs of the map in the lists, the two-level run behind the one-level run.
fn run_both(
    header: PlanHeader,
    starts: &[u32],
    heads: &[u32],
    costs: &[u32],
    holds: &[u32],
    distances: &mut [u32],
    parents: &mut [u32],
    roster: &mut [u32],
    work: &mut [u32],
) -> Result<BothRuns, Fault>
    requires { BothRunnable header
        (plan_lists starts.now heads.now costs.now holds.now distances.old parents.old roster.old work.old) }
    ensures { BothReturned header.segments
        (map_inputs header (plan_lists starts.now heads.now costs.now holds.now distances.old parents.old roster.old work.old))
        (plan_lists starts.now heads.now costs.now holds.now distances.old parents.old roster.old work.old)
        (plan_lists starts.now heads.now costs.now holds.now distances.new parents.new roster.new work.new)
        result }
{
    let n = header.nodes as usize;
    let m = header.arcs as usize;
    let given = Given {
        nodes: header.nodes,
        ceiling: header.ceiling,
        source: header.source,
        starts: &starts[..n + 1],
        heads: &heads[..m],
        costs: &costs[..m],
        holds: &holds[..n],
    };
    let one = runs::run(Levels::One, given, distances, parents, roster, work)?;
    let levels = Levels::Two {
        segments: header.segments,
    };
    let two = runs::run(levels, given, distances, parents, roster, work)?;
    Ok(BothRuns { one, two })
}

// Both runs of the map in the lists, and their answer.
fn plan_map(
    header: PlanHeader,
    starts: &[u32],
    heads: &[u32],
    costs: &[u32],
    holds: &[u32],
    distances: &mut [u32],
    parents: &mut [u32],
    roster: &mut [u32],
    work: &mut [u32],
    output: &mut [u8],
) -> usize
    requires both_runnable { BothRunnable header
        (plan_lists starts.now heads.now costs.now holds.now distances.old parents.old roster.old work.old) }
    requires output_len { length output.old ≡ 33280 }
    ensures { BothRun header.arcs header.segments
        (map_inputs header (plan_lists starts.now heads.now costs.now holds.now distances.old parents.old roster.old work.old))
        (plan_lists starts.now heads.now costs.now holds.now distances.old parents.old roster.old work.old)
        (plan_lists starts.now heads.now costs.now holds.now distances.new parents.new roster.new work.new)
        output.old output.new result }
{
    let runs = run_both(
        header, starts, heads, costs, holds, distances, parents, roster, work,
    );
    write_runs(output, header.nodes, header.arcs, runs, distances, parents)
}

// The lists as slices.
fn answer_in(
    bytes: &[u8],
    starts: &mut [u32],
    heads: &mut [u32],
    costs: &mut [u32],
    holds: &mut [u32],
    distances: &mut [u32],
    parents: &mut [u32],
    roster: &mut [u32],
    work: &mut [u32],
    output: &mut [u8],
) -> usize
    requires { PlanLends (plan_lists starts.old heads.old costs.old holds.old distances.old parents.old roster.old work.old) output.old }
    ensures { PlanningPromised bytes.now
        (plan_lists starts.old heads.old costs.old holds.old distances.old parents.old roster.old work.old)
        (plan_lists starts.new heads.new costs.new holds.new distances.new parents.new roster.new work.new)
        output.old output.new result }
{
    if bytes.len() > 65536 {
        let long = Fault {
            kind: Kind::InputSize,
            place: 0,
        };
        return report::write_refusal(output, long);
    }
    match reader::read(bytes, starts, heads, costs, holds) {
        Err(fault) => report::write_refusal(output, fault),
        Ok(header) => plan_map(
            header, starts, heads, costs, holds, distances, parents, roster, work, output,
        ),
    }
}

// What `plan` prints for the bytes of a planning file: it is written to the front of the output, and its length is given back.
pub fn answer(
    bytes: &[u8],
    starts: &mut [u32; 513],
    heads: &mut [u32; 2048],
    costs: &mut [u32; 2048],
    holds: &mut [u32; 512],
    distances: &mut [u32; 512],
    parents: &mut [u32; 512],
    roster: &mut [u32; 512],
    work: &mut [u32; 2432],
    output: &mut [u8; 33280],
) -> usize
    ensures { PlanningPromised bytes.now
        (plan_lists starts.old heads.old costs.old holds.old distances.old parents.old roster.old work.old)
        (plan_lists starts.new heads.new costs.new holds.new distances.new parents.new roster.new work.new)
        output.old output.new result }
{
    answer_in(
        bytes, starts, heads, costs, holds, distances, parents, roster, work, output,
    )
}
