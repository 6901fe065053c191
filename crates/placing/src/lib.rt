// Placements of nodes: insertions and decreases, and the relaxation of an arc that makes them (document 01, "The search" and "The tallies").
#![tactic(auto)]

ghost use Rattle.std.specs.Prelude.{◌≡◌, true, List, ℕ, get_or};
ghost use Rattle.buckets.specs.Words.{places};
ghost use Rattle.theory.specs.Network.{Link};
ghost use Rattle.theory.specs.Heap.{Heap, heap_label, heap_relax};
ghost use Rattle.state.specs.Stands.{Setting, Stands};
ghost use Rattle.placing.specs.Placing.{Entering, Entered, Standing, Stays, lists, link, Labels, SomeLabels, Relaxes, SomeRelaxes};

use bounds::HeldSearch;
use model::{Arc, Node};
use state::{Layout, State};

// Node v, unlabelled in the words, is put where its key belongs, in the bucket that the search for it has found; 1 if that is at the
// current key.
pub fn enter(
    words: &mut [u32],
    sizes: &[u32],
    layout: Layout,
    front: u32,
    v: Node,
    key: u32,
    bucket: usize,
) -> u32
    requires { Entering layout sizes.now words.old front v.0 key bucket }
    ensures { Entered layout sizes.now words.old words.new front v.0 key bucket result }
{
    let n = layout.nodes;
    let slots = layout.slots;
    let segments = layout.segments;
    if key == front {
        frontier::enter_current(words, n, slots, segments, v);
        return 1;
    }
    let bound = bounds::bound_of(words, n, bucket);
    let segment = bounds::segment_of(sizes, segments, layout.buckets, bucket, bound, key);
    let slot = (bucket - 1) * segments + (segment - 1);
    frontier::enter_slot(words, n, slots, segments, v, bucket, slot);
    0
}

// Whether a key, below that of a node in a list, has the same place word, by the bucket that its search has found: the node then stays where
// it is, and nothing is moved.
fn stays(sizes: &[u32], layout: Layout, front: u32, place: u32, key: u32, held: HeldSearch) -> bool
    requires { Standing layout sizes.now held.bound place key }
    ensures { result ≡ true → Stays layout sizes.now front place key held.bound held.bucket }
{
    if key == front {
        return false;
    }
    let bucket = frontier::place_bucket(place);
    if held.bucket != bucket {
        return false;
    }
    let segments = layout.segments;
    let slot = frontier::place_slot(place);
    let segment = slot - (bucket - 1) * segments + 1;
    bounds::is_in_segment(
        sizes,
        segments,
        layout.buckets,
        bucket,
        held.bound,
        segment,
        key,
    )
}

// Node v, unlabelled in the words, gets the distance `sum` by this arc: it is inserted.
pub fn insert_node(
    words: &mut [u32],
    distances: &mut [u32],
    parents: &mut [u32],
    sizes: &[u32],
    layout: Layout,
    state: State,
    v: Node,
    arc: Arc,
    sum: u32,
) -> State
    requires some_labels { SomeLabels layout sizes.now words.old distances.old parents.old state v.0 sum }
    requires v_value { get_or (places layout.nodes words.old) v.0 0 ≡ 0 }
    ensures stands { (X : Setting layout sizes.now) (before roster : List ℕ) (h : Heap)
        → Labels X before h (lists words.old distances.old parents.old roster) state v.0 sum
        → Stands layout X.shape before (heap_label X.shape v.0 sum arc.0 h) (lists words.new distances.new parents.new roster) result }
    ensures front { result.front ≡ state.front }
{
    let n = layout.nodes;
    let at = v.0 as usize;
    distances[at] = sum;
    parents[at] = arc.0;
    let found = bounds::bucket_of(words, n, sum, layout.buckets);
    let current = enter(words, sizes, layout, state.front, v, sum, found.bucket);
    State {
        current: state.current + current,
        tally: state.tally.inserted().read(found.reads),
        ..state
    }
}

// The distance of v falls to `sum`, by this arc: v is inserted or decreased.
pub fn label(
    words: &mut [u32],
    distances: &mut [u32],
    parents: &mut [u32],
    sizes: &[u32],
    layout: Layout,
    state: State,
    v: Node,
    arc: Arc,
    sum: u32,
) -> State
    requires { SomeLabels layout sizes.now words.old distances.old parents.old state v.0 sum }
    ensures stands { (X : Setting layout sizes.now) (before roster : List ℕ) (h : Heap)
        → Labels X before h (lists words.old distances.old parents.old roster) state v.0 sum
        → Stands layout X.shape before (heap_label X.shape v.0 sum arc.0 h) (lists words.new distances.new parents.new roster) result }
    ensures front { result.front ≡ state.front }
{
    let n = layout.nodes;
    let place = frontier::place_of(words, n, v);
    if frontier::is_unlabelled(place) {
        return insert_node(words, distances, parents, sizes, layout, state, v, arc, sum);
    }
    let at = v.0 as usize;
    distances[at] = sum;
    parents[at] = arc.0;
    let start = frontier::place_bucket(place);
    let held = bounds::bucket_held(words, n, sum, start);
    let decreased = state.tally.decreased();
    let tally = decreased.read(held.reads);
    if stays(sizes, layout, state.front, place, sum, held) {
        return State { tally, ..state };
    }
    frontier::leave_slot(words, n, layout.slots, layout.segments, v);
    let current = enter(words, sizes, layout, state.front, v, sum, held.bucket);
    State {
        current: state.current + current,
        tally,
        ..state
    }
}

// An arc of the node scanned last is taken. An unlabelled head's distance is the mark for "none", which is above every sum.
pub fn relax(
    words: &mut [u32],
    distances: &mut [u32],
    parents: &mut [u32],
    sizes: &[u32],
    layout: Layout,
    state: State,
    head: Node,
    arc: Arc,
    cost: u32,
) -> State
    requires { SomeRelaxes layout sizes.now words.old distances.old parents.old state (link arc.0 head.0 cost) }
    ensures stands { (X : Setting layout sizes.now) (before roster : List ℕ) (u : ℕ) (ls : List Link) (h : Heap)
        → Relaxes X before u (link arc.0 head.0 cost) ls h (lists words.old distances.old parents.old roster) state
        → Stands layout X.shape before (heap_relax X.shape state.front (link arc.0 head.0 cost) h) (lists words.new distances.new parents.new roster) result }
    ensures front { result.front ≡ state.front }
{
    let sum = state.front + cost;
    let at = head.0 as usize;
    if sum < distances[at] {
        return label(
            words, distances, parents, sizes, layout, state, head, arc, sum,
        );
    }
    state
}
