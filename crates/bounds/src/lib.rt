// The bounds of a radix heap, and the bucket and the segment of a key, for both heaps (document 01, "One-level heap" and "Two-level
// heap").
//     words[4 * n + i]    u(i), the bound of bucket i, for 1 ≤ i ≤ B; words[4 * n] is not used
//     sizes[i]            the size of bucket i, for 1 ≤ i < B, and 1 at i = 0: a segment of bucket i is sizes[i - 1] keys wide
// The one-level heap has one segment to a bucket.
#![tactic(auto)]

ghost use Rattle.std.specs.Prelude.{◌≡◌, ◌+◌, ◌*◌, ◌≤◌, ◌<◌, min, length};
ghost use Rattle.theory.specs.Heap.{bound, bucket_from, reads_from};
ghost use Rattle.bounds.specs.Words.{bounds_of, rebound_words, first_words, segmented, segment_number, segment_end, in_segment, Sized};

// u(i).
pub fn bound_of(words: &[u32], n: usize, i: usize) -> u32
    requires { 4 * n + i < length words.now }
    ensures { result ≡ bound (bounds_of n words.now) i }
{
    words[4 * n + i]
}

// The bucket of a key, and the bounds that the search for it has read (document 02, paper 3).
#[derive(Clone, Copy)]
pub struct BucketSearch {
    pub bucket: usize,
    pub reads: u32,
}

// The bucket of a key, searched for from bucket `start` down. The bounds are read one by one, so how many there were is told from where the
// search ends: no second count runs beside it.
#[tactic(auto, using(crate::proofs::Bucket::bucket_above, crate::proofs::Bucket::bucket_below, crate::proofs::Bucket::bucket_none, crate::proofs::Bucket::reads_above, crate::proofs::Bucket::reads_below, crate::proofs::Bucket::reads_none))]
pub fn bucket_of(words: &[u32], n: usize, key: u32, start: usize) -> BucketSearch
    requires start_in_bounds { 4 * n + start < length words.now }
    requires start_bound { start ≤ 32 }
    ensures { (result.bucket ≡ bucket_from (bounds_of n words.now) key start)
        × (result.reads ≡ reads_from (bounds_of n words.now) key start) }
{
    for i in (1..=start).rev() {
        if bound_of(words, n, i) < key {
            return BucketSearch {
                bucket: i + 1,
                reads: (start - i + 1) as u32,
            };
        }
    }
    BucketSearch {
        bucket: 1,
        reads: start as u32,
    }
}

// The same for a key that is no higher than the bound of the bucket where the search begins, and that bound.
#[derive(Clone, Copy)]
pub struct HeldSearch {
    pub bound: u32,
    pub bucket: usize,
    pub reads: u32,
}

// The first bound is read, and need not be compared: the search goes on below it.
#[tactic(auto, using(crate::proofs::Bucket::bucket_below, crate::proofs::Bucket::reads_below, crate::proofs::Bucket::reads_most))]
pub fn bucket_held(words: &[u32], n: usize, key: u32, start: usize) -> HeldSearch
    requires start_in_bounds { 4 * n + start < length words.now }
    requires le_start { (1 ≤ start) × (start ≤ 32) }
    requires key_bound { key ≤ bound (bounds_of n words.now) start }
    ensures { (result.bound ≡ bound (bounds_of n words.now) start)
        × (result.bucket ≡ bucket_from (bounds_of n words.now) key start)
        × (result.reads ≡ reads_from (bounds_of n words.now) key start) }
{
    let bound = bound_of(words, n, start);
    let below = bucket_of(words, n, key, start - 1);
    let reads = below.reads + 1;
    HeldSearch {
        bound,
        bucket: below.bucket,
        reads,
    }
}

// u(from), .., u(to - 1) are set anew: each is the one before and the bucket's size, but no more than `end`. So each is `before` and the
// sizes from bucket `from` on, but no more than `end`: the sum of the sizes does not wait for the comparison.
pub fn set_bounds(
    words: &mut [u32],
    n: usize,
    sizes: &[u32],
    end: u32,
    before: u32,
    from: usize,
    to: usize,
)
    requires to_in_bounds { 4 * n + to ≤ length words.old }
    requires to_in_sizes { to ≤ length sizes.now }
    requires to_bound { to ≤ 32 }
    requires before_le_end { before ≤ end }
    ensures { words.new ≡ rebound_words n sizes.now end before from to words.old }
{
    let mut offset = 0;
    for i in from..to {
        offset += sizes[i] as u64;
        words[4 * n + i] = raised(before, offset, end);
    }
}

// The smaller of `bound` + `offset` and `end`, found out by a difference, since the sum may not fit.
fn raised(bound: u32, offset: u64, end: u32) -> u32
    requires { bound ≤ end }
    ensures { result ≡ min (bound + offset) end }
{
    if offset < (end - bound) as u64 {
        bound + offset as u32
    } else {
        end
    }
}

// u(1), .., u(B) as they are at first: u(1) is one less than its bucket's size, the others follow from one another as in a removal, and
// none is above `top`, which is u(B).
#[tactic(auto, using(crate::proofs::Words::rebound_words_length))]
pub fn first_bounds(words: &mut [u32], n: usize, sizes: &[u32], buckets: usize, top: u32)
    requires buckets_in_bounds { 4 * n + buckets < length words.old }
    requires sized { Sized buckets sizes.now }
    ensures { words.new ≡ first_words n sizes.now buckets top words.old }
{
    let first = raised(0, (sizes[1] - 1) as u64, top);
    words[4 * n + 1] = first;
    set_bounds(words, n, sizes, top, first, 2, buckets);
    words[4 * n + buckets] = top;
}

// Whether a bucket has more than one segment.
fn is_segmented(segments: usize, buckets: usize, bucket: usize) -> bool
    ensures { result ≡ segmented buckets segments bucket }
{
    1 < segments && bucket < buckets
}

// The segment of a key that stands in a bucket with this bound; segments are counted from the top of a bucket's range.
#[tactic(auto, using(crate::proofs::Segments::segmented_below, crate::proofs::Segments::width_positive, crate::proofs::Segments::number_inside, crate::proofs::Segments::number_whole))]
pub fn segment_of(
    sizes: &[u32],
    segments: usize,
    buckets: usize,
    bucket: usize,
    bound: u32,
    key: u32,
) -> usize
    requires sized { Sized buckets sizes.now }
    requires le_bucket { 1 ≤ bucket }
    requires key_le_bound { key ≤ bound }
    requires bound { 1 ≤ segment_number buckets segments sizes.now bucket bound key }
    ensures { result ≡ segment_number buckets segments sizes.now bucket bound key }
{
    if is_segmented(segments, buckets, bucket) {
        segments - ((bound - key) / sizes[bucket - 1]) as usize
    } else {
        1
    }
}

// The upper end of a segment of a bucket with this bound.
#[tactic(auto, using(crate::proofs::Segments::segmented_below, crate::proofs::Segments::width_positive, crate::proofs::Segments::segments_left_most, crate::proofs::Segments::end_inside, crate::proofs::Segments::end_whole))]
pub fn segment_end(
    sizes: &[u32],
    segments: usize,
    buckets: usize,
    bucket: usize,
    bound: u32,
    segment: usize,
) -> u32
    requires sized { Sized buckets sizes.now }
    requires le_bucket { 1 ≤ bucket }
    requires segment_le_segments { segment ≤ segments }
    requires bound { 1 ≤ segment_end buckets segments sizes.now bucket bound segment }
    ensures { result ≡ segment_end buckets segments sizes.now bucket bound segment }
{
    if is_segmented(segments, buckets, bucket) {
        bound - (segments - segment) as u32 * sizes[bucket - 1]
    } else {
        bound
    }
}

// Whether a key below the upper end of a segment is in that segment, of a bucket with this bound. This takes no division.
#[tactic(auto, using(crate::proofs::Segments::segmented_below, crate::proofs::Segments::in_inside, crate::proofs::Segments::in_whole))]
pub fn is_in_segment(
    sizes: &[u32],
    segments: usize,
    buckets: usize,
    bucket: usize,
    bound: u32,
    segment: usize,
    key: u32,
) -> bool
    requires sized { Sized buckets sizes.now }
    requires le_bucket { (1 ≤ bucket) × (segment ≤ segments) }
    requires key_bound { key < segment_end buckets segments sizes.now bucket bound segment }
    ensures { result ≡ in_segment buckets segments sizes.now bucket bound segment key }
{
    if is_segmented(segments, buckets, bucket) {
        let end = segment_end(sizes, segments, buckets, bucket, bound, segment);
        return end - key < sizes[bucket - 1];
    }
    true
}
