// Nodes come into the lists of `buckets` and leave them, with the words laid out as that crate says.
#![tactic(auto)]

ghost use Rattle.std.specs.Prelude.{◌≡◌, ◌+◌, ◌-◌, ◌*◌, ◌≤◌, ◌<◌, length, get_or};
ghost use Rattle.buckets.specs.Words.{slot_bucket, place_word, place_bucket, node_or, Held, Free, places, bucket_count, count_at, recount, WordsFit};
ghost use Rattle.buckets.specs.Links.{Chains, Linked, Relinked, Moved};
ghost use Rattle.buckets.specs.Answer.{FirstTaken};

use model::Node;

// A node comes into a bucket. Where a bucket is one slot, the slot's head word says whether it is empty, and there is no count.
fn count_in(words: &mut [u32], n: usize, slots: usize, segments: usize, bucket: usize)
    requires linked { Linked n slots segments words.old }
    requires bucket_nonzero { (0 < bucket) × (bucket ≤ bucket_count slots segments) }
    ensures { let words₀ = words.old in
        words.new ≡ recount n slots segments bucket (get_or words₀ (count_at n slots bucket) 0 + 1) words₀ }
{
    if segments > 1 {
        let count = 4 * n + 32 + slots + (bucket - 1);
        words[count] += 1;
    }
}

// Node v leaves its bucket.
fn count_out(words: &mut [u32], n: usize, slots: usize, segments: usize, v: usize, bucket: usize)
    requires linked { Linked n slots segments words.old }
    requires v_lt_n { (v < n) × (bucket ≡ place_bucket (get_or words.old (2 * n + v) 0)) }
    requires held { Held (get_or (places n words.old) v 0) }
    ensures { let words₀ = words.old in
        words.new ≡ recount n slots segments bucket (get_or words₀ (count_at n slots bucket) 0 - 1) words₀ }
{
    if segments > 1 {
        let count = 4 * n + 32 + slots + (bucket - 1);
        words[count] -= 1;
    }
}

// The node that a next or head word points to, or v where it points to none: a store to that node's before word then needs no branch,
// which would often be mispredicted.
fn node_or(word: u32, v: usize) -> usize
    ensures { result ≡ node_or word v }
{
    if word == 0 {
        return v;
    }
    word as usize - 1
}

// Node v, which no slot holds, becomes the first of the slot.
fn link(
    words: &mut [u32],
    n: usize,
    slots: usize,
    segments: usize,
    v: usize,
    bucket: usize,
    slot: usize,
)
    requires words_fit { WordsFit n slots segments (length words.old) }
    requires chains { Chains n slots segments words.old }
    requires v_lt_n { (v < n) × (slot < slots) × (bucket ≡ slot_bucket segments slot) }
    requires free { Free (get_or (places n words.old) v 0) }
    ensures { Relinked n slots segments words.old words.new v (place_word segments slot) }
{
    let head = 4 * n + 32 + slot;
    let first = words[head];
    let u = node_or(first, v);
    words[n + u] = v as u32;
    words[2 * n + v] = (bucket * 512 + (slot + 1)) as u32;
    words[n + v] = head as u32;
    words[v] = first;
    words[head] = (v + 1) as u32;
}

// Node v leaves the slot that holds it, where `before` is its before word.
fn unlink(words: &mut [u32], n: usize, slots: usize, segments: usize, v: usize, before: usize)
    requires words_fit { WordsFit n slots segments (length words.old) }
    requires chains { Chains n slots segments words.old }
    requires v_lt_n { (v < n) × (before ≡ get_or words.old (n + v) 0) }
    requires held { Held (get_or (places n words.old) v 0) }
    ensures { Relinked n slots segments words.old words.new v 0 }
{
    let next = words[v];
    words[2 * n + v] = 0;
    words[before] = next;
    let u = node_or(next, v);
    words[n + u] = before as u32;
}

// v, which no slot holds, becomes the first of a bucket's slot. O(1).
pub fn put(
    words: &mut [u32],
    n: usize,
    slots: usize,
    segments: usize,
    v: Node,
    bucket: usize,
    slot: usize,
)
    requires linked { Linked n slots segments words.old }
    requires v_lt_n { (v.0 < n) × (slot < slots) × (bucket ≡ slot_bucket segments slot) }
    requires free { Free (get_or (places n words.old) v.0 0) }
    ensures { Moved n slots segments words.old words.new v.0 (place_word segments slot) }
{
    count_in(words, n, slots, segments, bucket);
    link(words, n, slots, segments, v.0 as usize, bucket, slot);
}

// v leaves the slot that holds it. O(1).
pub fn take(words: &mut [u32], n: usize, slots: usize, segments: usize, v: Node)
    requires linked { Linked n slots segments words.old }
    requires v_lt_n { v.0 < n }
    requires held { Held (get_or (places n words.old) v.0 0) }
    ensures { Moved n slots segments words.old words.new v.0 0 }
{
    let at = v.0 as usize;
    let bucket = (words[2 * n + at] / 512) as usize;
    let before = words[n + at] as usize;
    count_out(words, n, slots, segments, at, bucket);
    unlink(words, n, slots, segments, at, before);
}

// The first node of a bucket's slot leaves it, or there is none. O(1).
pub fn take_first(
    words: &mut [u32],
    n: usize,
    slots: usize,
    segments: usize,
    bucket: usize,
    slot: usize,
) -> Option<Node>
    requires linked { Linked n slots segments words.old }
    requires slot_lt_slots { (slot < slots) × (bucket ≡ slot_bucket segments slot) }
    ensures { FirstTaken n slots segments slot words.old words.new result }
{
    let head = 4 * n + 32 + slot;
    let first = words[head];
    if first == 0 {
        return None;
    }
    let v = first as usize - 1;
    count_out(words, n, slots, segments, v, bucket);
    unlink(words, n, slots, segments, v, head);
    Some(Node(v as u32))
}
