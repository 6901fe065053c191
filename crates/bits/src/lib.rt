// A set of nodes below n, at most 4,096 of them, as bits in lent words: the nodes that share the smallest distance, of which the one of
// smallest number is scanned first (document 01, "The search").
//     words[bits .. bits + (n + 31) / 32)              bit v % 32 of word v / 32 says that node v is in the set
//     words[summary .. summary + (n + 1023) / 1024)    bit i % 32 of word i / 32 says that word i of the bits is not 0
// No function touches another word, and each looks at no more than four words of the summary. Callers keep `BitSet` and `In` shut.
#![tactic(auto)]

ghost use Rattle.std.specs.Prelude.{◌<◌};
ghost use Rattle.bits.specs.Sets.{BitSet, In, Inhabited, Inserted, Removed, Smallest, Taken};

use model::Node;

// Node v, which is not in the set, comes into it.
pub fn insert(words: &mut [u32], n: usize, bits: usize, summary: usize, v: Node)
    requires bit_set { BitSet 32 n bits summary words.old }
    requires v_lt_n { v.0 < n }
    requires not_in { In 32 n bits words.old v.0 → ⊥ }
    ensures { Inserted 32 n bits summary words.old words.new v.0 }
{
    let node = v.0 as usize;
    let i = node / 32;
    let old = words[bits + i];
    words[bits + i] = old + (1u32 << (node % 32));
    if old == 0 {
        words[summary + i / 32] += 1u32 << (i % 32);
    }
}

// The smallest node of the set, which has one, leaves it and is given back.
pub fn take_smallest(words: &mut [u32], n: usize, bits: usize, summary: usize) -> Node
    requires bit_set { BitSet 32 n bits summary words.old }
    requires inhabited { Inhabited 32 n bits words.old }
    ensures { Taken 32 n bits summary words.old words.new result.0 }
{
    let node = smallest(words, n, bits, summary);
    remove(words, n, bits, summary, node);
    Node(node as u32)
}

// The smallest node of the set, which has one: the first word of the summary that is not 0 leads to it.
#[tactic(auto, using(crate::specs::Sets::Find::word_some))]
fn smallest(words: &[u32], n: usize, bits: usize, summary: usize) -> usize
    requires bit_set { BitSet 32 n bits summary words.now }
    requires inhabited { Inhabited 32 n bits words.now }
    ensures { Smallest 32 n bits words.now result }
{
    let mut j = 0;
    while words[summary + j] == 0 {
        j += 1;
    }
    let i = j * 32 + u32::trailing_zeros(words[summary + j]) as usize;
    i * 32 + u32::trailing_zeros(words[bits + i]) as usize
}

// A node of the set leaves it.
#[tactic(auto, using(crate::specs::Sets::Change::remove_le, crate::specs::Sets::Change::remove_told_le))]
fn remove(words: &mut [u32], n: usize, bits: usize, summary: usize, node: usize)
    requires bit_set { BitSet 32 n bits summary words.old }
    requires is_in { In 32 n bits words.old node }
    ensures { Removed 32 n bits summary words.old words.new node }
{
    let i = node / 32;
    let left = words[bits + i] - (1u32 << (node % 32));
    words[bits + i] = left;
    if left == 0 {
        words[summary + i / 32] -= 1u32 << (i % 32);
    }
}
