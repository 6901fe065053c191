// The checks of a road file: every line in order, and no word written (document 02, paper 1).
#![tactic(auto)]

ghost use Rattle.std.specs.Prelude.{Err, ◌≡◌, [], ◌∷◌, ◌++◌, ◌≤◌, max, length, drop};
ghost use Rattle.checks.specs.Checks.{first_fault};
ghost use Rattle.dimacs_lines.specs.Lines.{road_lines};
ghost use Rattle.model.specs.Answers.{fault_of};
ghost use Rattle.dimacs_checks.specs.Checking.{problem_checks, lines_check};
ghost use Rattle.dimacs_checks.specs.Finding.{ProblemFound};

use checks::map_lists_check;
use dimacs_lines::{Told, line_at};
use model::{Fault, Kind};

mod lines;

// The `p` line: its numbers, the place behind it and the number of lines up to it.
#[derive(Clone, Copy)]
pub struct ProblemLine {
    pub nodes: u32,
    pub arcs: u32,
    pub at: usize,
    pub line: usize,
}

// Comments alone may stand before the `p` line.
pub fn find_problem(bytes: &[u8]) -> Result<ProblemLine, Fault>
    ensures { ProblemFound bytes.now result }
{
    let mut at = 0;
    let mut line = 0;
    while at < bytes.len() {
        line += 1;
        let Some(found) = line_at(bytes, at) else {
            return no_problem(Kind::RoadForm, line);
        };
        match found.told {
            Told::Comment => at += found.taken,
            Told::Problem { nodes, arcs } => {
                return Ok(ProblemLine {
                    nodes,
                    arcs,
                    at: at + found.taken,
                    line,
                });
            }
            Told::RoadArc { .. } => return no_problem(Kind::RoadOrder, line),
        }
    }
    no_problem(Kind::RoadOrder, last_line(line))
}

fn no_problem(kind: Kind, place: usize) -> Result<ProblemLine, Fault>
    ensures { result ≡ Err (fault_of kind place) }
{
    Err(Fault { kind, place })
}

// What the `p` line tells and the lists lent for it, then the lines behind it.
pub fn problem_check(
    bytes: &[u8],
    at: usize,
    line: usize,
    n: u32,
    arcs: u32,
    ceiling: u32,
    starts: usize,
    heads: usize,
    costs: usize,
) -> Result<(), Fault>
    requires line_le_at { line ≤ at }
    requires at_in_bounds { at ≤ length bytes.now }
    ensures { result ≡ first_fault (problem_checks n arcs ceiling starts heads costs
        ++ (lines_check n arcs ceiling 0 line (road_lines (drop at bytes.now)) ∷ [])) }
{
    numbers_check(n, arcs, ceiling, starts, heads, costs)?;
    lines::lines_check(bytes, at, line, n, arcs, ceiling)
}

#[tactic(auto, unfolding(checks::specs::Checks::first_fault, crate::specs::Checking::problem_checks))]
fn numbers_check(
    n: u32,
    arcs: u32,
    ceiling: u32,
    starts: usize,
    heads: usize,
    costs: usize,
) -> Result<(), Fault>
    ensures { result ≡ first_fault (problem_checks n arcs ceiling starts heads costs) }
{
    check_numbers::nodes_check(n)?;
    check_numbers::head_count_check(arcs as usize)?;
    check_numbers::ceiling_check(ceiling)?;
    map_lists_check(n, arcs, starts, heads, costs)
}

// The last line of an empty file counts as 1.
fn last_line(lines: usize) -> usize
    ensures { result ≡ max lines 1 }
{
    if lines < 1 { 1 } else { lines }
}
