// Slots of nodes, as linked lists in one lent slice of words. A slot is one segment of one bucket: with `segments` segments to a bucket,
// bucket i (counted from 1) has the slots (i - 1) * segments up to i * segments - 1, and the last bucket only its first. The words of
// n nodes, with heads = 4 * n + 32:
//     words[0 .. n)                     next:   0 at the end, else the next node and 1
//     words[n .. 2n)                    before: of a held node, the index of the word that points to it, a next word or a head word
//                                       (Linux's hlist: a node leaves with no search and no first case)
//     words[2n .. 3n)                   place:  of a held node, its bucket * 512 and its slot and 1; below 512: not held, the caller's
//     words[3n .. heads)                the caller's
//     words[heads .. heads + slots)     the head of each slot: 0 if it is empty, else its first node and 1
//     words[heads + slots .. )          only if a bucket has several segments: how many nodes each bucket holds
// Callers see `Linked`, which they keep shut, and `places`, the list of the place words. The limits are those of `Fits`: at most 511
// slots, so that a slot's number and 1 fit 9 bits, and 4 * n + 32 + slots below 2^32, so that an index fits a word. Here lists are read;
// the crate `linking` changes them.
#![tactic(auto)]

ghost use Rattle.std.specs.Prelude.{◌≤◌, ◌<◌, length};
ghost use Rattle.buckets.specs.Words.{bucket_count};
ghost use Rattle.buckets.specs.Links.{Linked};
ghost use Rattle.buckets.specs.Answer.{InSlot, SomeNode, FirstIn, EmptyBucket, Earlier, LeastIn};

use model::Node;

// The first node of a slot, or that there is none. O(1).
pub fn first(words: &[u32], n: usize, slots: usize, segments: usize, slot: usize) -> Option<Node>
    requires linked { Linked n slots segments words.now }
    requires slot_lt_slots { slot < slots }
    ensures { FirstIn n segments slot words.now result }
{
    let first = words[4 * n + 32 + slot];
    if first == 0 {
        return None;
    }
    Some(Node(first - 1))
}

// Whether a bucket has no node: one test, of its one slot's head word or of its count word. O(1).
pub fn is_empty(words: &[u32], n: usize, slots: usize, segments: usize, bucket: usize) -> bool
    requires linked { Linked n slots segments words.now }
    requires bucket_nonzero { (0 < bucket) × (bucket ≤ bucket_count slots segments) }
    ensures { EmptyBucket n bucket words.now result }
{
    if segments > 1 {
        return words[4 * n + 32 + slots + (bucket - 1)] == 0;
    }
    words[4 * n + 32 + (bucket - 1)] == 0
}

// Of u and v the one that goes before: by its key, and of equal keys by its number.
fn earlier(keys: &[u32], u: usize, v: usize) -> usize
    requires { (u < length keys.now) × (v < length keys.now) }
    ensures { Earlier keys.now u v result }
{
    if (keys[u], u) <= (keys[v], v) {
        return u;
    }
    v
}

// The node of a slot, which is not empty, that goes before each other one of the slot. One step for each node of the slot.
pub fn least(
    words: &[u32],
    n: usize,
    slots: usize,
    segments: usize,
    slot: usize,
    keys: &[u32],
) -> Node
    requires linked { Linked n slots segments words.now }
    requires slot_lt_slots { (slot < slots) × (n ≤ length keys.now) }
    requires some { SomeNode (InSlot n segments slot words.now) }
    ensures { LeastIn n segments slot words.now keys.now result.0 }
{
    let first = words[4 * n + 32 + slot] as usize;
    let mut best = first - 1;
    let mut at = words[best];
    while at != 0 {
        let u = at as usize - 1;
        best = earlier(keys, best, u);
        at = words[u];
    }
    Node(best as u32)
}
