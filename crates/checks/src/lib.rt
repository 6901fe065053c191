// The checks of what a call is given, in the order of each entry point (document 01, "What a call returns"; document 02, paper 2).
#![tactic(auto)]

ghost use Rattle.std.specs.Prelude.{◌≡◌};
ghost use Rattle.checks.specs.Checks.{first_fault, lent_checks, map_lists, file_lists, size_checks, lists_checks, map_checks, run_lists, levels_checks, run_checks, lengths_for};
ghost use Rattle.theory.specs.Runs.{work_words};
ghost use Rattle.checks.specs.Given.{inputs_of};

use check_lists::{limits, starts};
use model::{Fault, Node};
use theory::Levels;

// What a call is given: a map, its ceiling and source (document 01, "What the planner holds and leaves out").
#[derive(Clone, Copy)]
pub struct Given<'a> {
    pub nodes: u32,
    pub ceiling: u32,
    pub source: Node,
    pub starts: &'a [u32],
    pub heads: &'a [u32],
    pub costs: &'a [u32],
    pub holds: &'a [u32],
}

#[tactic(auto, unfolding(crate::specs::Checks::first_fault, crate::specs::Checks::size_checks))]
fn size_check(
    n: u32,
    ceiling: u32,
    source: Node,
    starts: usize,
    heads: usize,
    costs: usize,
) -> Result<(), Fault>
    ensures { result ≡ first_fault (size_checks n ceiling source.0 starts heads costs) }
{
    check_numbers::nodes_check(n)?;
    check_numbers::ceiling_check(ceiling)?;
    check_numbers::source_check(n, source)?;
    check_numbers::arc_count_check(heads, costs)?;
    check_numbers::start_count_check(n, starts)
}

// The words are read only once the sizes have passed: number 6 reads n + 1 starts.
pub fn lists_check<'a>(given: Given<'a>) -> Result<(), Fault>
    ensures { result ≡ first_fault (lists_checks (inputs_of given.entry)) }
{
    size_check(
        given.nodes,
        given.ceiling,
        given.source,
        given.starts.len(),
        given.heads.len(),
        given.costs.len(),
    )?;
    starts::starts_check(given.nodes, given.heads.len(), given.starts)?;
    limits::holds_check(given.nodes, given.ceiling, given.holds)?;
    limits::heads_check(given.nodes, given.heads)
}

// Sums are looked at only once the lists have passed: a tail is found by its starts, and what a hold leaves of the ceiling needs 20.
pub fn map_check<'a>(given: Given<'a>) -> Result<(), Fault>
    ensures { result ≡ first_fault (map_checks (inputs_of given.entry)) }
{
    lists_check(given)?;
    check_sums::sums_check(
        given.nodes,
        given.ceiling,
        given.starts,
        given.costs,
        given.holds,
    )
}

// For every reader, which fills starts, heads and costs.
#[tactic(auto, unfolding(crate::specs::Checks::first_fault, crate::specs::Checks::lent_checks))]
pub fn map_lists_check(
    n: u32,
    arcs: u32,
    starts: usize,
    heads: usize,
    costs: usize,
) -> Result<(), Fault>
    ensures { result ≡ first_fault (lent_checks 0 (map_lists n arcs starts heads costs)) }
{
    let words = arcs as usize;
    check_numbers::lent_check(0, starts, n as usize + 1)?;
    check_numbers::lent_check(1, heads, words)?;
    check_numbers::lent_check(2, costs, words)
}

// For the reader of planning files, which fills the holds too.
pub fn file_lists_check(
    n: u32,
    arcs: u32,
    starts: usize,
    heads: usize,
    costs: usize,
    holds: usize,
) -> Result<(), Fault>
    ensures { result ≡ first_fault (lent_checks 0 (file_lists n arcs starts heads costs holds)) }
{
    map_lists_check(n, arcs, starts, heads, costs)?;
    check_numbers::lent_check(3, holds, n as usize)
}

#[tactic(auto, unfolding(crate::specs::Checks::first_fault, crate::specs::Checks::lent_checks))]
pub fn run_lists_check(
    n: u32,
    distances: usize,
    parents: usize,
    roster: usize,
    work: usize,
    needed: usize,
) -> Result<(), Fault>
    ensures { result ≡ first_fault (lent_checks 0 (run_lists n (lengths_for distances parents roster work) needed)) }
{
    let nodes = n as usize;
    check_numbers::lent_check(0, distances, nodes)?;
    check_numbers::lent_check(1, parents, nodes)?;
    check_numbers::lent_check(2, roster, nodes)?;
    check_numbers::lent_check(3, work, needed)
}

// 9, which a run of one level does not make.
#[tactic(auto, unfolding(crate::specs::Checks::first_fault))]
pub fn levels_check(levels: Levels) -> Result<(), Fault>
    ensures { result ≡ first_fault (levels_checks levels) }
{
    match levels {
        Levels::One => Ok(()),
        Levels::Two { segments } => check_numbers::segments_check(segments),
    }
}

// The words of work that a run needs.
pub fn work_words(levels: Levels, n: u32) -> usize
    ensures { result ≡ work_words levels n }
{
    let fixed = match levels {
        Levels::One => 64,
        Levels::Two { .. } => 384,
    };
    4 * n as usize + fixed
}

pub fn run_check<'a>(
    levels: Levels,
    given: Given<'a>,
    distances: usize,
    parents: usize,
    roster: usize,
    work: usize,
) -> Result<(), Fault>
    ensures { result ≡ first_fault (run_checks levels (inputs_of given.entry) (lengths_for distances parents roster work)) }
{
    map_check(given)?;
    levels_check(levels)?;
    let needed = work_words(levels, given.nodes);
    run_lists_check(given.nodes, distances, parents, roster, work, needed)
}
