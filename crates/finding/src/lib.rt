// The lowest bucket and segment that are not empty, and the looks that find them (document 01, "One-level heap", "Two-level heap" and "The
// tallies").
#![tactic(auto)]

ghost use Rattle.std.specs.Prelude.{◌≡◌, ◌-◌, ◌<◌, ◌≤◌};
ghost use Rattle.finding.specs.Finding.{Holds, LowestBucket, InBucketSome, LowestSegment, looks_of};

use state::Layout;

// The lowest bucket that is not empty, tested one by one from bucket 1. A node ends the tests; a `for` over the buckets would need an answer
// for none.
pub fn lowest_bucket(words: &[u32], layout: Layout) -> usize
    requires { Holds layout words.now }
    ensures { LowestBucket layout words.now result }
{
    let n = layout.nodes;
    let slots = layout.slots;
    let segments = layout.segments;
    let mut bucket = 1;
    while buckets::is_empty(words, n, slots, segments, bucket) {
        bucket += 1;
    }
    bucket
}

// The lowest segment of a bucket that is not empty, tested one by one from segment 1, as the buckets are.
pub fn lowest_segment(words: &[u32], layout: Layout, bucket: usize) -> usize
    requires { InBucketSome layout words.now bucket }
    ensures { LowestSegment layout words.now bucket result }
{
    let n = layout.nodes;
    let slots = layout.slots;
    let segments = layout.segments;
    let before = (bucket - 1) * segments;
    let mut segment = 1;
    while buckets::first(words, n, slots, segments, before + (segment - 1)).is_none() {
        segment += 1;
    }
    segment
}

// The looks of a removal from a segment of a bucket: at segments only where a bucket has more than one.
pub fn looks_of(segments: usize, bucket: usize, segment: usize) -> u32
    requires bucket_bound { bucket ≤ 22 }
    requires segment_bound { segment ≤ 64 }
    ensures { result ≡ looks_of segments bucket segment }
{
    if 1 < segments {
        return (bucket + segment) as u32;
    }
    bucket as u32
}

// The segment of bucket 1 that holds the current key, tested one by one from segment 1. A segment of bucket 1 is one key wide, so segment
// k ends K - k keys below the bound (document 01, "Two-level heap"). Counted by hand, since each test is one of the looks that are told
// (document 01, "The tallies"): a difference would tell looks that nothing made.
pub fn current_segment(segments: usize, bound: u32, front: u32) -> usize
    requires front_le_bound { front ≤ bound }
    requires front_bound { bound - front < segments }
    ensures { result ≡ segments - (bound - front) }
{
    let below = (bound - front) as usize;
    let mut tested = 1;
    while below < segments - tested {
        tested += 1;
    }
    tested
}
