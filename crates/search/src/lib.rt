// The start of a run and the scan of a node (document 01, "The search").
#![tactic(auto)]

ghost use Rattle.std.specs.Prelude.{◌≡◌, List, ℕ, ◌<◌, length, replicate};
ghost use Rattle.theory.specs.Maps.{map_of};
ghost use Rattle.theory.specs.Network.{tail_hold};
ghost use Rattle.theory.specs.Heap.{Heap, heap, heap_relax_all, heap_start};
ghost use Rattle.state.specs.Stands.{Setting, Stands};
ghost use Rattle.placing.specs.Placing.{lists};
ghost use Rattle.search.specs.Scans.{links_between, Scans, SomeScans};
ghost use Rattle.search.specs.Starts.{Starts, SomeStarts};
ghost use Rattle.search.specs.Running.{Runs, SomeRuns, Steps, SomeSteps};

use model::{Arc, Node};
use state::{Layout, State};

// Every word of a list is set.
pub fn fill(list: &mut [u32], word: u32)
    ensures { list.new ≡ replicate (length list.old) word }
{
    list.fill(word);
}

// Nothing is labelled but the source, at distance 0. Its parent is the mark for "none", and so are all other distances and parents.
pub fn start(
    words: &mut [u32],
    distances: &mut [u32],
    parents: &mut [u32],
    sizes: &[u32],
    layout: Layout,
    top: u32,
    source: Node,
) -> State
    requires { SomeStarts layout sizes.now words.old distances.old parents.old top source.0 }
    ensures stands { (X : Setting layout sizes.now) (before : List ℕ)
        → Starts X words.old distances.old parents.old top source.0
        → Stands layout X.shape before (heap_start X.network X.shape) (lists words.new distances.new parents.new before) result }
    ensures front { result.front ≡ 0 }
{
    fill(words, 0);
    fill(distances, 4294967295);
    fill(parents, 4294967295);
    bounds::first_bounds(words, layout.nodes, sizes, layout.buckets, top);
    let blank = State::default();
    placing::insert_node(
        words,
        distances,
        parents,
        sizes,
        layout,
        blank,
        source,
        Arc(4294967295),
        0,
    )
}

// What the arcs out of node v cost besides themselves (document 02, paper 2).
pub fn tail_hold(holds: &[u32], source: Node, v: Node) -> u32
    requires { v.0 < length holds.now }
    ensures { result ≡ tail_hold holds.now source.0 v.0 }
{
    if v.0 == source.0 {
        0
    } else {
        holds[v.0 as usize]
    }
}

// The arcs first, first + 1, .., last - 1 of the node scanned last are taken in number order. Each costs `hold` besides itself.
pub fn scan(
    words: &mut [u32],
    distances: &mut [u32],
    parents: &mut [u32],
    sizes: &[u32],
    heads: &[u32],
    costs: &[u32],
    hold: u32,
    layout: Layout,
    state: State,
    first: usize,
    last: usize,
) -> State
    requires { SomeScans layout sizes.now words.old distances.old parents.old state heads.now costs.now hold first last }
    ensures stands { (X : Setting layout sizes.now) (before roster : List ℕ) (u : ℕ) (h : Heap)
        → Scans X before u h (lists words.old distances.old parents.old roster) state heads.now costs.now hold first last
        → Stands layout X.shape before (heap_relax_all X.shape state.front (links_between heads.now costs.now hold first last) h) (lists words.new distances.new parents.new roster) result }
    ensures front { result.front ≡ state.front }
{
    let mut reached = state;
    for a in first..last {
        reached = placing::relax(
            words,
            distances,
            parents,
            sizes,
            layout,
            reached,
            Node(heads[a]),
            Arc(a as u32),
            costs[a] + hold,
        );
    }
    reached
}

// While more nodes are inserted than scanned, one is labelled: the least of them is removed and scanned.
fn scan_all(
    words: &mut [u32],
    distances: &mut [u32],
    parents: &mut [u32],
    roster: &mut [u32],
    sizes: &[u32],
    starts: &[u32],
    heads: &[u32],
    costs: &[u32],
    holds: &[u32],
    layout: Layout,
    state: State,
    source: Node,
) -> State
    requires { SomeSteps layout sizes.now words.old distances.old parents.old roster.old starts.now heads.now costs.now holds.now state source.0 }
    ensures { (X : Setting layout sizes.now) (before : List ℕ) (h : Heap)
        → Steps X (map_of layout.nodes starts.now heads.now costs.now holds.now) source.0 before h (lists words.old distances.old parents.old roster.old) state
        → Stands layout X.shape before (heap X.network X.shape) (lists words.new distances.new parents.new roster.new) result }
{
    let mut step = state;
    while step.reached < step.tally.insertions {
        let removed = removal::remove(words, distances, roster, sizes, layout, step);
        let at = removed.node.0 as usize;
        let hold = tail_hold(holds, source, removed.node);
        let first = starts[at] as usize;
        let last = starts[at + 1] as usize;
        step = scan(
            words,
            distances,
            parents,
            sizes,
            heads,
            costs,
            hold,
            layout,
            removed.state,
            first,
            last,
        );
    }
    step
}

// A run over a map: its lists stand for the last heap of the steps.
pub fn run(
    words: &mut [u32],
    distances: &mut [u32],
    parents: &mut [u32],
    roster: &mut [u32],
    sizes: &[u32],
    starts: &[u32],
    heads: &[u32],
    costs: &[u32],
    holds: &[u32],
    layout: Layout,
    top: u32,
    source: Node,
) -> State
    requires { SomeRuns layout sizes.now words.old distances.old parents.old roster.old starts.now heads.now costs.now holds.now top source.0 }
    ensures { (X : Setting layout sizes.now)
        → Runs X (map_of layout.nodes starts.now heads.now costs.now holds.now) source.0 words.old distances.old parents.old roster.old top
        → Stands layout X.shape roster.old (heap X.network X.shape) (lists words.new distances.new parents.new roster.new) result }
{
    let state = start(words, distances, parents, sizes, layout, top, source);
    scan_all(
        words, distances, parents, roster, sizes, starts, heads, costs, holds, layout, state,
        source,
    )
}
