// The steps of both heaps and their counts, taken literally: each question is a loop over all nodes (document 01, "The tallies", with the
// holds of document 02, paper 2, and the bounds read of its paper 3).
use crate::heap;
use crate::heap::Heap;
use test_reference_map::case::{Case, Counts, Height};
use test_reference_map::map::Lists;
use test_reference_map::nodes::Table;
use test_reference_map::{map, nodes, words};

// What the steps count, and the highest bucket that a removal used.
const INSERTIONS: u64 = 0;

const DECREASES: u64 = 1;

const SHIFTS: u64 = 2;

const LOOKS: u64 = 3;

const READS: u64 = 4;

const HIGHEST: u64 = 5;

const COUNTS: u64 = 6;

fn count(table: &Table, which: u64) -> u64 {
    nodes::get(table, nodes::COUNT, which)
}

fn tally(table: &mut Table, which: u64, more: u64) {
    nodes::add(table, nodes::COUNT, which, more);
}

fn key_of(table: &Table, v: u64) -> u64 {
    nodes::get(table, nodes::STEP_DISTANCE, v)
}

fn bucket_of(table: &Table, v: u64) -> u64 {
    nodes::get(table, nodes::BUCKET, v)
}

// The segment that a labelled node stands in.
fn segment_of(heap: Heap, table: &Table, v: u64) -> u64 {
    heap::segment_of(heap, table, bucket_of(table, v), key_of(table, v))
}

// The node to be removed, if one is labelled: of the lowest bucket, there of the lowest segment, there of the smallest key, and of the
// smallest number among equals.
fn first(heap: Heap, n: u64, table: &Table) -> Option<u64> {
    (0..n)
        .filter(|v| bucket_of(table, *v) != 0)
        .min_by_key(|v| {
            let segment = segment_of(heap, table, *v);
            (bucket_of(table, *v), segment, key_of(table, *v))
        })
}

// Whether node v stands in segment k of bucket j.
fn stands_in(heap: Heap, table: &Table, v: u64, j: u64, k: u64) -> bool {
    bucket_of(table, v) == j && segment_of(heap, table, v) == k
}

// A node is put in the bucket of its key, the search for which starts at a bucket, and what this counts as.
fn place(table: &mut Table, v: u64, start: u64, which: u64) {
    let found = heap::search(table, start, key_of(table, v));
    nodes::set(table, nodes::BUCKET, v, found.bucket);
    tally(table, READS, found.reads);
    tally(table, which, 1);
}

// A node that stands in segment k of bucket j goes to its new place.
fn shift(heap: Heap, table: &mut Table, v: u64, j: u64, k: u64) {
    if stands_in(heap, table, v, j, k) {
        place(table, v, j, SHIFTS);
    }
}

// The nodes that are left in segment k of bucket j are shifted.
fn shift_all(heap: Heap, n: u64, table: &mut Table, j: u64, k: u64) {
    for v in 0..n {
        shift(heap, table, v, j, k);
    }
}

// The buckets examined up to j, and in the two-level heap the segments examined up to k.
fn looks(heap: Heap, j: u64, k: u64) -> u64 {
    match heap.height {
        Height::One => j,
        Height::Two => words::sum(j, k),
    }
}

// A removal from segment k of bucket j.
fn tally_removal(heap: Heap, table: &mut Table, j: u64, k: u64) {
    tally(table, LOOKS, looks(heap, j, k));
    let highest = words::most(count(table, HIGHEST), j);
    nodes::set(table, nodes::COUNT, HIGHEST, highest);
}

// The new bounds and the shifts of a removal with smallest key d, where j is not 1.
fn renew(heap: Heap, n: u64, table: &mut Table, j: u64, k: u64, d: u64) {
    let t = heap::upper_end(heap, table, j, k);
    heap::new_bounds(heap, table, j, d, t);
    shift_all(heap, n, table, j, k);
}

// Removal of the minimum: its node, if one is labelled.
fn remove(heap: Heap, n: u64, table: &mut Table) -> Option<u64> {
    let v = first(heap, n, table)?;
    let j = bucket_of(table, v);
    let k = segment_of(heap, table, v);
    tally_removal(heap, table, j, k);
    nodes::set(table, nodes::BUCKET, v, 0);
    if j > 1 {
        renew(heap, n, table, j, k, key_of(table, v));
    }
    Some(v)
}

// Node v with its distance over an arc: inserted, decreased from its present bucket, or left. The mark for none is above every distance.
fn label(heap: Heap, table: &mut Table, v: u64, key: u64, arc: u64) {
    let before = key_of(table, v);
    if key >= before {
        return;
    }
    nodes::set(table, nodes::STEP_DISTANCE, v, key);
    nodes::set(table, nodes::STEP_PARENT, v, arc);
    if before == nodes::NONE {
        place(table, v, heap.buckets, INSERTIONS);
    } else {
        place(table, v, bucket_of(table, v), DECREASES);
    }
}

// An arc costs its tail's hold besides itself, unless its tail is the source.
fn cost_of(source: u64, lists: &Lists, v: u64, arc: u64) -> u64 {
    let cost = map::cost(lists, arc);
    if v == source {
        return cost;
    }
    words::sum(cost, map::hold(lists, v))
}

fn scan(heap: Heap, source: u64, lists: &Lists, table: &mut Table, v: u64) {
    for arc in map::arcs(lists, v) {
        let key = words::sum(key_of(table, v), cost_of(source, lists, v, arc));
        label(heap, table, map::head(lists, arc), key, arc);
    }
}

// Removals until nothing is labelled; each scanned node's place in the order is kept.
fn remove_all(heap: Heap, n: u64, source: u64, lists: &Lists, table: &mut Table) -> u64 {
    for scanned in 0..n {
        let Some(v) = remove(heap, n, table) else {
            return scanned;
        };
        nodes::set(table, nodes::STEP_ORDER, scanned, v);
        scan(heap, source, lists, table, v);
    }
    n
}

// Every node in no bucket, at no distance and with no parent, and nothing counted.
fn clear(n: u64, table: &mut Table) {
    nodes::fill(table, nodes::STEP_DISTANCE, n, nodes::NONE);
    nodes::fill(table, nodes::STEP_PARENT, n, nodes::NONE);
    nodes::fill(table, nodes::BUCKET, n, 0);
    nodes::fill(table, nodes::COUNT, COUNTS, 0);
}

// Insertions, decreases and shifts.
fn placements(table: &Table) -> u64 {
    let moved = words::sum(count(table, DECREASES), count(table, SHIFTS));
    words::sum(count(table, INSERTIONS), moved)
}

// The counts of a run with one level or with two, and its rows of the table.
pub fn run(height: Height, case: Case, lists: &Lists, table: &mut Table) -> Counts {
    let n = u64::from(case.nodes);
    let heap = heap::heap_of(height, n, u64::from(case.ceiling), u64::from(case.segments));
    clear(n, table);
    heap::first_bounds(heap, table);
    let source = u64::from(case.source);
    label(heap, table, source, 0, nodes::NONE);
    let reached = remove_all(heap, n, source, lists, table);
    Counts {
        reached,
        buckets: heap.buckets,
        decreases: count(table, DECREASES),
        placements: placements(table),
        looks: count(table, LOOKS),
        reads: count(table, READS),
        highest: count(table, HIGHEST),
    }
}
