// The labelled nodes of a run in its work words: those at the key that was scanned last as bits by number, every other one in the list of
// its slot. The place word of a node, words[2n + v], tells which: 0 unlabelled, 1 in the bits, 2 scanned, else the word of its slot.
//     words[0 .. 3n)            the lists' next, before and place words
//     words[3n .. 4n)           the bits
//     words[4n .. 4n + 24)      the bounds, which this crate leaves alone
//     words[4n + 24 .. 4n + 28) the summary of the bits
//     words[4n + 32 .. )        the lists' heads and counts
// Callers keep `Frontier` shut and go by the place words, which the first functions here read.
#![tactic(auto)]

ghost use Rattle.std.specs.Prelude.{◌≡◌, ◌*◌, ◌%◌, ◌<◌, ◌≤◌, eqb, length, get_or};
ghost use Rattle.buckets.specs.Words.{places, place_word, place_bucket, place_slot, slot_bucket, Held};
ghost use Rattle.frontier.specs.Frontier.{Frontier, Placed, Current, FirstCurrent, FirstLeft};

use model::Node;

// The place word of v.
pub fn place_of(words: &[u32], n: usize, v: Node) -> u32
    requires { (v.0 < n) × (3 * n ≤ length words.now) }
    ensures { result ≡ get_or (places n words.now) v.0 0 }
{
    let at = v.0 as usize;
    words[2 * n + at]
}

// Whether the node of a place word is unlabelled.
pub fn is_unlabelled(place: u32) -> bool
    ensures { result ≡ eqb place 0 }
{
    place == 0
}

// The bucket that a place word names.
pub fn place_bucket(place: u32) -> usize
    ensures { result ≡ place_bucket place }
{
    (place / 512) as usize
}

// The slot that a place word names.
pub fn place_slot(place: u32) -> usize
    requires { 0 < place % 512 }
    ensures { result ≡ place_slot place }
{
    (place % 512) as usize - 1
}

// v, which is unlabelled, is put among the nodes at the current key.
pub fn enter_current(words: &mut [u32], n: usize, slots: usize, segments: usize, v: Node)
    requires frontier { Frontier n slots segments words.old }
    requires v_lt_n { (v.0 < n) × (get_or (places n words.old) v.0 0 ≡ 0) }
    ensures { Placed n slots segments words.old words.new v.0 1 }
{
    bits::insert(words, n, 3 * n, 4 * n + 24, v);
    let at = v.0 as usize;
    words[2 * n + at] = 1;
}

// The node of smallest number at the current key leaves as scanned.
pub fn take_current(words: &mut [u32], n: usize, slots: usize, segments: usize) -> Node
    requires frontier { Frontier n slots segments words.old }
    requires current { Current n words.old }
    ensures { FirstCurrent n slots segments words.old words.new result.0 }
{
    let v = bits::take_smallest(words, n, 3 * n, 4 * n + 24);
    let at = v.0 as usize;
    words[2 * n + at] = 2;
    v
}

// v, which is unlabelled, is put in a slot.
pub fn enter_slot(
    words: &mut [u32],
    n: usize,
    slots: usize,
    segments: usize,
    v: Node,
    bucket: usize,
    slot: usize,
)
    requires frontier { Frontier n slots segments words.old }
    requires v_lt_n { (v.0 < n) × (get_or (places n words.old) v.0 0 ≡ 0) }
    requires slot_lt_slots { (slot < slots) × (bucket ≡ slot_bucket segments slot) }
    ensures { Placed n slots segments words.old words.new v.0 (place_word segments slot) }
{
    linking::put(words, n, slots, segments, v, bucket, slot);
}

// v leaves its slot, as unlabelled.
pub fn leave_slot(words: &mut [u32], n: usize, slots: usize, segments: usize, v: Node)
    requires frontier { Frontier n slots segments words.old }
    requires v_lt_n { (v.0 < n) × Held (get_or (places n words.old) v.0 0) }
    ensures { Placed n slots segments words.old words.new v.0 0 }
{
    linking::take(words, n, slots, segments, v);
}

// v leaves its slot as scanned.
pub fn scan_slot(words: &mut [u32], n: usize, slots: usize, segments: usize, v: Node)
    requires frontier { Frontier n slots segments words.old }
    requires v_lt_n { (v.0 < n) × Held (get_or (places n words.old) v.0 0) }
    ensures { Placed n slots segments words.old words.new v.0 2 }
{
    linking::take(words, n, slots, segments, v);
    let at = v.0 as usize;
    words[2 * n + at] = 2;
}

// The first node of a bucket's slot leaves it, as unlabelled, or there is none.
pub fn take_first(
    words: &mut [u32],
    n: usize,
    slots: usize,
    segments: usize,
    bucket: usize,
    slot: usize,
) -> Option<Node>
    requires frontier { Frontier n slots segments words.old }
    requires slot_lt_slots { (slot < slots) × (bucket ≡ slot_bucket segments slot) }
    ensures { FirstLeft n slots segments slot words.old words.new result }
{
    linking::take_first(words, n, slots, segments, bucket, slot)
}
