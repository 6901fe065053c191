// The checks of a planning file in their order; no word is written here (document 01, "What a call returns"; document 02, paper 2).
#![tactic(auto)]

ghost use Rattle.std.specs.Prelude.{◌≡◌, ◌++◌, ◌≤◌, true, not, eqb, length, drop};
ghost use Rattle.checks.specs.Checks.{first_fault};
ghost use Rattle.plan_lines.specs.Told.{lines_arcs};
ghost use Rattle.plan_checks.specs.Checking.{left_over_check, behind_checks, lines_checks, header_checks, ArcsPassed};

use checks::file_lists_check;
use cursor::left_over_at;
use model::{Fault, Kind, Node};

mod arcs;
mod holds;

// What line 1 tells and the lists lent for it, then the lines behind it. Holds are told where `held` is not 0.
pub fn plan_check(
    bytes: &[u8],
    at: usize,
    n: u32,
    arcs: u32,
    ceiling: u32,
    source: Node,
    segments: u32,
    held: u32,
    starts: usize,
    heads: usize,
    costs: usize,
    holds: usize,
) -> Result<(), Fault>
    requires { at ≤ length bytes.now }
    ensures { result ≡ first_fault (header_checks n arcs ceiling source.0 segments starts heads costs holds
        ++ lines_checks n arcs ceiling (not (eqb held 0)) (drop at bytes.now)) }
{
    header_check(
        n, arcs, ceiling, source, segments, starts, heads, costs, holds,
    )?;
    lines_check(bytes, at, n, arcs, ceiling, held != 0)
}

fn header_check(
    n: u32,
    arcs: u32,
    ceiling: u32,
    source: Node,
    segments: u32,
    starts: usize,
    heads: usize,
    costs: usize,
    holds: usize,
) -> Result<(), Fault>
    ensures { result ≡ first_fault (header_checks n arcs ceiling source.0 segments starts heads costs holds) }
{
    check_numbers::nodes_check(n)?;
    check_numbers::head_count_check(arcs as usize)?;
    check_numbers::ceiling_check(ceiling)?;
    check_numbers::source_check(n, source)?;
    check_numbers::segments_check(segments)?;
    file_lists_check(n, arcs, starts, heads, costs, holds)
}

// Where no holds are told, no sum can be above the ceiling: every cost has been held against it.
fn lines_check(
    bytes: &[u8],
    at: usize,
    n: u32,
    arcs: u32,
    ceiling: u32,
    held: bool,
) -> Result<(), Fault>
    requires { at ≤ length bytes.now }
    ensures { result ≡ first_fault (lines_checks n arcs ceiling held (drop at bytes.now)) }
{
    let behind = arcs::arcs_check(bytes, at, n, arcs, ceiling)?;
    if held {
        held_check(bytes, at, behind, n, arcs, ceiling)
    } else {
        left_over_check(bytes, behind, arcs as usize + 2)
    }
}

// Behind the arcs' lines, where holds are told: their lines begin at `from`. Sums are looked at only once these lines are known to be in
// order.
fn held_check(
    bytes: &[u8],
    at: usize,
    from: usize,
    n: u32,
    arcs: u32,
    ceiling: u32,
) -> Result<(), Fault>
    requires { ArcsPassed n arcs ceiling bytes.now at from }
    ensures { result ≡ first_fault (behind_checks n arcs ceiling true (lines_arcs arcs (drop at bytes.now)) (drop from bytes.now)) }
{
    let behind = holds::hold_lines_check(bytes, from, n, arcs, ceiling)?;
    left_over_check(bytes, behind, arcs as usize + n as usize + 2)?;
    plan_sums::arc_sums_check(bytes, at, from, n, arcs, ceiling)
}

// Behind the last line no byte is left.
fn left_over_check(bytes: &[u8], at: usize, line: usize) -> Result<(), Fault>
    requires { at ≤ length bytes.now }
    ensures { result ≡ left_over_check line (drop at bytes.now) }
{
    if left_over_at(bytes, at) > 0 {
        Err(Fault {
            kind: Kind::PlanLine,
            place: line,
        })
    } else {
        Ok(())
    }
}
