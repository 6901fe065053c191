// The removal of the node to scan: the node of smallest key, and of smallest number among equals, with the new bounds and the shifts
// (document 01, "One-level heap", "Two-level heap" and "The tallies").
#![tactic(auto)]

ghost use Rattle.std.specs.Prelude.{◌≡◌, ◌<◌};
ghost use Rattle.removal.specs.Removing.{SomeRests, Removes};

use model::Node;
use state::{Layout, State};

// The node that was removed, and the run's numbers after it.
#[derive(Clone, Copy)]
pub struct Removed {
    pub node: Node,
    pub state: State,
}

// The node of smallest number at the current key is removed, from bucket 1.
fn remove_current(
    words: &mut [u32],
    distances: &[u32],
    roster: &mut [u32],
    sizes: &[u32],
    layout: Layout,
    state: State,
) -> Removed
    requires some_rests { SomeRests layout sizes.now words.old distances.now roster.old state }
    requires current_nonzero { 0 < state.current }
    ensures { Removes layout sizes.now words.old words.new distances.now roster.old roster.new state result }
{
    let n = layout.nodes;
    let segments = layout.segments;
    let bound = bounds::bound_of(words, n, 1);
    let segment = finding::current_segment(segments, bound, state.front);
    let looks = finding::looks_of(segments, 1, segment);
    let v = frontier::take_current(words, n, layout.slots, segments);
    let at = state.reached as usize;
    roster[at] = v.0;
    Removed {
        node: v,
        state: State {
            current: state.current - 1,
            reached: state.reached + 1,
            tally: state.tally.looked(looks),
            ..state
        },
    }
}

// The least node of the lowest segment of the lowest bucket is removed, and the segment's other nodes go where they belong.
fn remove_listed(
    words: &mut [u32],
    distances: &[u32],
    roster: &mut [u32],
    sizes: &[u32],
    layout: Layout,
    state: State,
) -> Removed
    requires some_rests { SomeRests layout sizes.now words.old distances.now roster.old state }
    requires current_value { state.current ≡ 0 }
    ensures { Removes layout sizes.now words.old words.new distances.now roster.old roster.new state result }
{
    let n = layout.nodes;
    let segments = layout.segments;
    let bucket = finding::lowest_bucket(words, layout);
    let segment = finding::lowest_segment(words, layout, bucket);
    let slot = (bucket - 1) * segments + (segment - 1);
    let v = buckets::least(words, n, layout.slots, segments, slot, distances);
    let key = distances[v.0 as usize];
    frontier::scan_slot(words, n, layout.slots, segments, v);
    shifting::renew_bounds(words, sizes, layout, bucket, segment, key);
    let next = state.reached as usize;
    roster[next] = v.0;
    let looks = finding::looks_of(segments, bucket, segment);
    let scanned = State {
        front: key,
        current: 0,
        reached: state.reached + 1,
        tally: state.tally.looked(looks),
    };
    let moved = shifting::distribute(words, distances, sizes, layout, scanned, bucket, slot);
    Removed {
        node: v,
        state: moved,
    }
}

// The node to scan is removed.
pub fn remove(
    words: &mut [u32],
    distances: &[u32],
    roster: &mut [u32],
    sizes: &[u32],
    layout: Layout,
    state: State,
) -> Removed
    requires { SomeRests layout sizes.now words.old distances.now roster.old state }
    ensures { Removes layout sizes.now words.old words.new distances.now roster.old roster.new state result }
{
    if 0 < state.current {
        return remove_current(words, distances, roster, sizes, layout, state);
    }
    remove_listed(words, distances, roster, sizes, layout, state)
}
