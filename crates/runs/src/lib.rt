// The run that callers use, by either heap: it makes its checks, plans with the core, and leaves its work words at 0 (document 01,
// "What the planner holds and leaves out" and "What a call returns").
#![tactic(auto)]

ghost use Rattle.std.specs.Prelude.{◌≡◌, ◌+◌, ◌<◌, Ok};
ghost use Rattle.theory.specs.Maps.{map_of};
ghost use Rattle.theory.specs.Heap.{heap};
ghost use Rattle.state.specs.Stands.{Setting};
ghost use Rattle.theory.specs.Runs.{segment_count};
ghost use Rattle.theory.specs.declared.Levels.{Levels};
ghost use Rattle.checks.specs.Checks.{Ready};
ghost use Rattle.checks.specs.Given.{inputs_of};
ghost use Rattle.runs.specs.Promise.{Ran, Promised, lent, lengths_of};
ghost use Rattle.runs.specs.Parts.{counts_told, Built, SomeBuilt, RunsOn, SomeRunsOn, Ended};

use checks::Given;
use model::{Counts, Fault, Run};
use state::{Layout, State, Tally};
use theory::Levels;

// The counts of a run, from its tallies.
fn counts(tally: Tally) -> Counts
    requires { tally.insertions + tally.decreases + tally.shifts < 4294967296 }
    ensures { result ≡ counts_told tally }
{
    Counts {
        decreases: tally.decreases,
        placements: tally.insertions + tally.decreases + tally.shifts,
        looks: tally.looks,
        reads: tally.reads,
    }
}

// The core on exactly the words that a run fills of each list; the work words are cleared behind it.
fn run_on<'a>(
    given: Given<'a>,
    distances: &mut [u32],
    parents: &mut [u32],
    roster: &mut [u32],
    work: &mut [u32],
    sizes: &[u32],
    layout: Layout,
    top: u32,
    needed: usize,
) -> State
    requires { SomeRunsOn layout sizes.now given.starts.now given.heads.now given.costs.now given.holds.now
        given.source.0 top needed
        (lent distances.old parents.old roster.old work.old) }
    ensures { (X : Setting layout sizes.now)
        → RunsOn X (map_of layout.nodes given.entry.starts.now given.entry.heads.now given.entry.costs.now given.entry.holds.now)
        given.entry.source.0 top needed
        (lent distances.old parents.old roster.old work.old)
        → Ended (heap X.network X.shape) needed
        (lent distances.old parents.old roster.old work.old)
        (lent distances.new parents.new roster.new work.new) result }
{
    let n = layout.nodes;
    let state = search::run(
        &mut work[..needed],
        &mut distances[..n],
        &mut parents[..n],
        roster,
        sizes,
        given.starts,
        given.heads,
        given.costs,
        given.holds,
        layout,
        top,
        given.source,
    );
    search::fill(&mut work[..needed], 0);
    state
}

// The run of inputs and lists that have passed the checks, in a heap of so many buckets of so many segments.
fn steps<'a>(
    given: Given<'a>,
    buckets: u32,
    segments: u32,
    needed: usize,
    sizes: &[u32],
    distances: &mut [u32],
    parents: &mut [u32],
    roster: &mut [u32],
    work: &mut [u32],
) -> Run
    requires { SomeBuilt (inputs_of given) buckets segments sizes.now needed
        (lent distances.old parents.old roster.old work.old) }
    ensures { (L : Levels)
        → Built L (inputs_of given.entry) buckets segments sizes.now needed
        (lent distances.old parents.old roster.old work.old)
        → Ran L (inputs_of given.entry) (Ok tt) (Ok result)
        (lent distances.old parents.old roster.old work.old)
        (lent distances.new parents.new roster.new work.new) }
{
    let slots = (buckets - 1) * segments + 1;
    let layout = Layout {
        nodes: given.nodes as usize,
        buckets: buckets as usize,
        segments: segments as usize,
        slots: slots as usize,
    };
    let top = given.nodes * given.ceiling + 1;
    let state = run_on(
        given, distances, parents, roster, work, sizes, layout, top, needed,
    );
    Run {
        reached: state.reached,
        buckets,
        counts: counts(state.tally),
    }
}

// The run of inputs and lists that have passed the checks.
pub fn run_steps<'a>(
    levels: Levels,
    given: Given<'a>,
    distances: &mut [u32],
    parents: &mut [u32],
    roster: &mut [u32],
    work: &mut [u32],
) -> Run
    requires { Ready levels (inputs_of given)
        (lengths_of (lent distances.old parents.old roster.old work.old)) }
    ensures { Ran levels (inputs_of given.entry) (Ok tt) (Ok result)
        (lent distances.old parents.old roster.old work.old)
        (lent distances.new parents.new roster.new work.new) }
{
    let buckets = sizes::buckets(levels, given.ceiling);
    let segments = segment_count(levels);
    let needed = checks::work_words(levels, given.nodes);
    let sizes = sizes::sizes(levels);
    steps(
        given, buckets, segments, needed, &sizes, distances, parents, roster, work,
    )
}

// A bucket of the one-level heap is one segment.
fn segment_count(levels: Levels) -> u32
    ensures { result ≡ segment_count levels }
{
    match levels {
        Levels::One => 1,
        Levels::Two { segments } => segments,
    }
}

pub fn run<'a>(
    levels: Levels,
    given: Given<'a>,
    distances: &mut [u32],
    parents: &mut [u32],
    roster: &mut [u32],
    work: &mut [u32],
) -> Result<Run, Fault>
    ensures { Promised levels (inputs_of given.entry) result
        (lent distances.old parents.old roster.old work.old)
        (lent distances.new parents.new roster.new work.new) }
{
    checks::run_check(
        levels,
        given,
        distances.len(),
        parents.len(),
        roster.len(),
        work.len(),
    )?;
    Ok(run_steps(levels, given, distances, parents, roster, work))
}
