// The reader of planning files (document 01, "Planning file" and "What a call returns"; document 02, paper 2).
#![tactic(auto)]

ghost use Rattle.std.specs.Prelude.{◌≤◌, length, Some};
ghost use Rattle.reader.specs.Promise.{HeaderAnswered, PlanPromised};

use model::{Fault, Kind, Node};
use plan_lines::HeaderLine;

mod filling;

// What line 1 tells of a file that is read.
#[derive(Clone, Copy, Debug, PartialEq, Eq)]
pub struct PlanHeader {
    pub nodes: u32,
    pub arcs: u32,
    pub ceiling: u32,
    pub source: Node,
    pub segments: u32,
}

pub fn read(
    bytes: &[u8],
    starts: &mut [u32],
    heads: &mut [u32],
    costs: &mut [u32],
    holds: &mut [u32],
) -> Result<PlanHeader, Fault>
    ensures { PlanPromised bytes.now starts.old heads.old costs.old holds.old
        starts.new heads.new costs.new holds.new result }
{
    let Some(line) = plan_lines::header_line_at(bytes, 0) else {
        return Err(Fault {
            kind: Kind::PlanLine,
            place: 1,
        });
    };
    read_lines(bytes, line, starts, heads, costs, holds)
}

// A file whose line 1 is this one. Nothing is written before every check has passed.
fn read_lines(
    bytes: &[u8],
    line: HeaderLine,
    starts: &mut [u32],
    heads: &mut [u32],
    costs: &mut [u32],
    holds: &mut [u32],
) -> Result<PlanHeader, Fault>
    requires { line.taken ≤ length bytes.now }
    ensures { HeaderAnswered (Some line)
        bytes.now starts.old heads.old costs.old holds.old
        starts.new heads.new costs.new holds.new result }
{
    let source = Node(line.source);
    plan_checks::plan_check(
        bytes,
        line.taken,
        line.nodes,
        line.arcs,
        line.ceiling,
        source,
        line.segments,
        line.held as u32,
        starts.len(),
        heads.len(),
        costs.len(),
        holds.len(),
    )?;
    let behind = filling::fill(
        bytes, line.taken, line.nodes, line.arcs, starts, heads, costs,
    );
    filling::fill_holds(bytes, behind, line.nodes, line.held, holds);
    Ok(PlanHeader {
        nodes: line.nodes,
        arcs: line.arcs,
        ceiling: line.ceiling,
        source,
        segments: line.segments,
    })
}
