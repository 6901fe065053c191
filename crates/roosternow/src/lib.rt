// The interface for C (include/roosternow.h): each function hands numbers and lists to an entry point, and writes what it answers to a
// lent array of fixed size (document 01, "What a call returns"). C has no enum with a number in it, so each kind of heap has functions of its own,
// with the lists as parameters of their own.
#![tactic(auto)]

mod arriving;
mod text;
mod writing;

ghost use Rattle.std.specs.Prelude.{◌≡◌};
ghost use Rattle.theory.specs.Runs.{inputs};
ghost use Rattle.runs.specs.Promise.{lent};
ghost use Rattle.roosternow.specs.Handing.{archive_version, OneLevelHanded, TwoLevelHanded, RouteHanded, ReadHanded, DimacsHanded};

use answer_words::{dimacs_words, read_words, route_words, run_words};
use checks::Given;
use model::Node;
use theory::Levels;

const VERSION: u32 = 2000;

// The version of the archive, which a program holds against the header's.
#[unsafe(no_mangle)]
pub extern "C" fn roosternow_version() -> u32
    ensures { result ≡ archive_version }
{
    VERSION
}

// The one-level run.
#[unsafe(no_mangle)]
pub extern "C" fn roosternow_one_level(
    n: u32,
    ceiling: u32,
    source: u32,
    starts: &[u32],
    heads: &[u32],
    costs: &[u32],
    holds: &[u32],
    distances: &mut [u32],
    parents: &mut [u32],
    roster: &mut [u32],
    work: &mut [u32],
    numbers: &mut [u64; 8],
)
    ensures { OneLevelHanded (inputs n ceiling source starts.now heads.now costs.now holds.now)
        (lent distances.old parents.old roster.old work.old)
        (lent distances.new parents.new roster.new work.new) numbers.new }
{
    let given = Given {
        nodes: n,
        ceiling,
        source: Node(source),
        starts,
        heads,
        costs,
        holds,
    };
    let one = runs::run(Levels::One, given, distances, parents, roster, work);
    *numbers = run_words(one);
}

// The two-level run.
#[unsafe(no_mangle)]
pub extern "C" fn roosternow_two_level(
    n: u32,
    ceiling: u32,
    source: u32,
    segments: u32,
    starts: &[u32],
    heads: &[u32],
    costs: &[u32],
    holds: &[u32],
    distances: &mut [u32],
    parents: &mut [u32],
    roster: &mut [u32],
    work: &mut [u32],
    numbers: &mut [u64; 8],
)
    ensures { TwoLevelHanded segments (inputs n ceiling source starts.now heads.now costs.now holds.now)
        (lent distances.old parents.old roster.old work.old)
        (lent distances.new parents.new roster.new work.new) numbers.new }
{
    let given = Given {
        nodes: n,
        ceiling,
        source: Node(source),
        starts,
        heads,
        costs,
        holds,
    };
    let two = runs::run(
        Levels::Two { segments },
        given,
        distances,
        parents,
        roster,
        work,
    );
    *numbers = run_words(two);
}

// The route to a destination, by a parent table.
#[unsafe(no_mangle)]
pub extern "C" fn roosternow_route(
    n: u32,
    source: u32,
    starts: &[u32],
    heads: &[u32],
    parents: &[u32],
    destination: u32,
    route: &mut [u32],
    numbers: &mut [u64; 3],
)
    ensures { RouteHanded n source starts.now heads.now parents.now destination
        route.old route.new numbers.new }
{
    let answer = route::route(
        n,
        Node(source),
        starts,
        heads,
        parents,
        Node(destination),
        route,
    );
    *numbers = route_words(answer);
}

// The map of a planning file.
#[unsafe(no_mangle)]
pub extern "C" fn roosternow_read(
    bytes: &[u8],
    starts: &mut [u32],
    heads: &mut [u32],
    costs: &mut [u32],
    holds: &mut [u32],
    numbers: &mut [u64; 7],
)
    ensures { ReadHanded bytes.now starts.old heads.old costs.old holds.old
        starts.new heads.new costs.new holds.new numbers.new }
{
    let answer = reader::read(bytes, starts, heads, costs, holds);
    *numbers = read_words(answer);
}

// The map of a road file.
#[unsafe(no_mangle)]
pub extern "C" fn roosternow_read_dimacs(
    bytes: &[u8],
    ceiling: u32,
    starts: &mut [u32],
    heads: &mut [u32],
    costs: &mut [u32],
    numbers: &mut [u64; 4],
)
    ensures { DimacsHanded bytes.now ceiling starts.old heads.old costs.old
        starts.new heads.new costs.new numbers.new }
{
    let answer = dimacs::read(bytes, ceiling, starts, heads, costs);
    *numbers = dimacs_words(answer);
}
