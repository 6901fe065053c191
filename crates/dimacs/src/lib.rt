// The reader of road files in the shortest path format of the 9th DIMACS Challenge (document 02, paper 1).
#![tactic(auto)]

ghost use Rattle.dimacs.specs.Promise.{DimacsPromised};

use dimacs_checks::ProblemLine;
use model::Fault;

mod filling;

// n and m of the `p` line.
#[derive(Clone, Copy)]
pub struct RoadSize {
    pub nodes: u32,
    pub arcs: u32,
}

// Nothing is written before every check has passed.
pub fn read(
    bytes: &[u8],
    ceiling: u32,
    starts: &mut [u32],
    heads: &mut [u32],
    costs: &mut [u32],
) -> Result<RoadSize, Fault>
    ensures { DimacsPromised bytes.now ceiling starts.old heads.old costs.old
        starts.new heads.new costs.new result }
{
    let ProblemLine {
        nodes,
        arcs,
        at,
        line,
    } = dimacs_checks::find_problem(bytes)?;
    dimacs_checks::problem_check(
        bytes,
        at,
        line,
        nodes,
        arcs,
        ceiling,
        starts.len(),
        heads.len(),
        costs.len(),
    )?;
    filling::fill(bytes, at, nodes, starts, heads, costs);
    Ok(RoadSize { nodes, arcs })
}
