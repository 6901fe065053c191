// The interface for C, continued: runs to a destination (document 02, paper 7).
ghost use Rattle.theory.specs.Runs.{inputs};
ghost use Rattle.destination.specs.Promise.{lent_to};
ghost use Rattle.roosternow.specs.Handing.{OneLevelToHanded, TwoLevelToHanded};

use answer_words::run_words;
use checks::Given;
use model::Node;
use theory::Levels;

// The one-level run to a destination.
#[unsafe(no_mangle)]
pub extern "C" fn roosternow_one_level_to(
    n: u32,
    ceiling: u32,
    destination: u32,
    starts: &[u32],
    heads: &[u32],
    costs: &[u32],
    holds: &[u32],
    distances: &mut [u32],
    parents: &mut [u32],
    roster: &mut [u32],
    work: &mut [u32],
    reversed_starts: &mut [u32],
    reversed_heads: &mut [u32],
    reversed_costs: &mut [u32],
    old_arcs: &mut [u32],
    numbers: &mut [u64; 8],
)
    ensures { OneLevelToHanded (inputs n ceiling destination starts.now heads.now costs.now holds.now)
        (lent_to distances.old parents.old roster.old work.old reversed_starts.old
        reversed_heads.old reversed_costs.old old_arcs.old)
        (lent_to distances.new parents.new roster.new work.new reversed_starts.new
        reversed_heads.new reversed_costs.new old_arcs.new)
        numbers.new }
{
    let given = Given {
        nodes: n,
        ceiling,
        source: Node(destination),
        starts,
        heads,
        costs,
        holds,
    };
    let one = destination::run_to(
        Levels::One,
        given,
        distances,
        parents,
        roster,
        work,
        reversed_starts,
        reversed_heads,
        reversed_costs,
        old_arcs,
    );
    *numbers = run_words(one);
}

// The two-level run to a destination.
#[unsafe(no_mangle)]
pub extern "C" fn roosternow_two_level_to(
    n: u32,
    ceiling: u32,
    destination: u32,
    segments: u32,
    starts: &[u32],
    heads: &[u32],
    costs: &[u32],
    holds: &[u32],
    distances: &mut [u32],
    parents: &mut [u32],
    roster: &mut [u32],
    work: &mut [u32],
    reversed_starts: &mut [u32],
    reversed_heads: &mut [u32],
    reversed_costs: &mut [u32],
    old_arcs: &mut [u32],
    numbers: &mut [u64; 8],
)
    ensures { TwoLevelToHanded segments (inputs n ceiling destination starts.now heads.now costs.now holds.now)
        (lent_to distances.old parents.old roster.old work.old reversed_starts.old
        reversed_heads.old reversed_costs.old old_arcs.old)
        (lent_to distances.new parents.new roster.new work.new reversed_starts.new
        reversed_heads.new reversed_costs.new old_arcs.new)
        numbers.new }
{
    let given = Given {
        nodes: n,
        ceiling,
        source: Node(destination),
        starts,
        heads,
        costs,
        holds,
    };
    let two = destination::run_to(
        Levels::Two { segments },
        given,
        distances,
        parents,
        roster,
        work,
        reversed_starts,
        reversed_heads,
        reversed_costs,
        old_arcs,
    );
    *numbers = run_words(two);
}
