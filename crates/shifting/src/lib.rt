// The new bounds of a removal, and the shifts of the nodes of the segment that it uses (document 01, "One-level heap", "Two-level heap" and
// "The tallies").
#![tactic(auto)]

ghost use Rattle.std.specs.Prelude.{◌≡◌};
ghost use Rattle.shifting.specs.Renewing.{Renews, renewed};
ghost use Rattle.shifting.specs.Moving.{Settles, Settled, Distributes, Distributed};

use model::Node;
use state::{Layout, State};

// The bounds below the bucket that is used are set anew. Below bucket 1 there are none.
pub fn renew_bounds(
    words: &mut [u32],
    sizes: &[u32],
    layout: Layout,
    bucket: usize,
    segment: usize,
    key: u32,
)
    requires { Renews layout sizes.now words.old bucket segment key }
    ensures { words.new ≡ renewed layout sizes.now words.old bucket segment key }
{
    let n = layout.nodes;
    let bound = bounds::bound_of(words, n, bucket);
    let end = bounds::segment_end(
        sizes,
        layout.segments,
        layout.buckets,
        bucket,
        bound,
        segment,
    );
    bounds::set_bounds(words, n, sizes, end, key - 1, 1, bucket);
}

// A node of the segment that is used, which has left its slot, goes where its key belongs. In bucket 1 all keys of a segment are equal: such a
// node comes to the current key without a search, and is not shifted.
fn move_node(
    words: &mut [u32],
    distances: &[u32],
    sizes: &[u32],
    layout: Layout,
    state: State,
    bucket: usize,
    v: Node,
) -> State
    requires { Settles layout sizes.now words.old distances.now state bucket v.0 }
    ensures { Settled layout sizes.now words.old words.new distances.now state result bucket v.0 }
{
    let n = layout.nodes;
    if bucket <= 1 {
        frontier::enter_current(words, n, layout.slots, layout.segments, v);
        return State {
            current: state.current + 1,
            ..state
        };
    }
    let at = v.0 as usize;
    let key = distances[at];
    let found = bounds::bucket_of(words, n, key, bucket);
    let current = placing::enter(words, sizes, layout, state.front, v, key, found.bucket);
    State {
        current: state.current + current,
        tally: state.tally.shifted().read(found.reads),
        ..state
    }
}

// The nodes of a slot of a bucket are distributed: every one goes where its key belongs.
pub fn distribute(
    words: &mut [u32],
    distances: &[u32],
    sizes: &[u32],
    layout: Layout,
    state: State,
    bucket: usize,
    slot: usize,
) -> State
    requires { Distributes layout sizes.now words.old distances.now state bucket slot }
    ensures { Distributed layout sizes.now words.old words.new distances.now state result bucket slot }
{
    let n = layout.nodes;
    let slots = layout.slots;
    let segments = layout.segments;
    let mut moved = state;
    while let Some(v) = frontier::take_first(words, n, slots, segments, bucket, slot) {
        moved = move_node(words, distances, sizes, layout, moved, bucket, v);
    }
    moved
}
