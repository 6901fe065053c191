// The numbers of the two heaps by document 01's formulas ("One-level heap", "Two-level heap"): powers by multiplication, the logarithm by
// a loop.
use test_reference_map::case::Height;
use test_reference_map::nodes::Table;
use test_reference_map::{nodes, words};

// K is `segments`, B is `buckets`, nC + 1 is `top`. The one-level heap has one segment to a bucket.
#[derive(Clone, Copy)]
pub struct Heap {
    pub height: Height,
    pub segments: u64,
    pub buckets: u64,
    pub top: u64,
}

// ceil(log) of a number up to 2^20: the least exponent whose power is not below the number.
fn logarithm(base: u64, number: u64) -> u64 {
    (0..20)
        .find(|exponent| words::power(base, *exponent) >= number)
        .unwrap_or(20)
}

pub fn heap_of(height: Height, n: u64, ceiling: u64, segments: u64) -> Heap {
    let top = words::sum(words::product(n, ceiling), 1);
    let costs = words::sum(ceiling, 1);
    match height {
        Height::One => Heap {
            height,
            segments: 1,
            buckets: words::sum(logarithm(2, costs), 2),
            top,
        },
        Height::Two => Heap {
            height,
            segments,
            buckets: words::most(2, words::sum(logarithm(segments, costs), 1)),
            top,
        },
    }
}

// The size of bucket i below the last.
pub fn size(heap: Heap, i: u64) -> u64 {
    if heap.height == Height::Two {
        return words::power(heap.segments, i);
    }
    if i == 1 {
        return 1;
    }
    words::power(2, words::minus(i, 2))
}

// base + base^2 + .. + base^i
fn powers_to(base: u64, i: u64) -> u64 {
    let mut total = 0;
    for exponent in 0..i {
        total = words::sum(total, words::power(base, words::sum(exponent, 1)));
    }
    total
}

// u(i) at first, below the last bucket.
fn first_bound(heap: Heap, i: u64) -> u64 {
    if heap.height == Height::Two {
        return words::least(words::minus(powers_to(heap.segments, i), 1), heap.top);
    }
    words::least(
        words::minus(words::power(2, words::minus(i, 1)), 1),
        heap.top,
    )
}

pub fn bound(table: &Table, i: u64) -> u64 {
    nodes::get(table, nodes::BOUND, i)
}

fn set_bound(table: &mut Table, i: u64, number: u64) {
    nodes::set(table, nodes::BOUND, i, number);
}

pub fn first_bounds(heap: Heap, table: &mut Table) {
    let last = heap.buckets;
    for i in 1..last {
        set_bound(table, i, first_bound(heap, i));
    }
    set_bound(table, last, heap.top);
}

// The bucket of a key, and the bounds that the search for it has read (document 02, paper 3).
#[derive(Clone, Copy)]
pub struct Found {
    pub bucket: u64,
    pub reads: u64,
}

// i + 1 for the largest i from `start` down with u(i) below the key, or 1 if there is none. Each bound that is compared is read.
pub fn search(table: &Table, start: u64, key: u64) -> Found {
    match (1..=start).rev().find(|i| bound(table, *i) < key) {
        Some(i) => Found {
            bucket: words::sum(i, 1),
            reads: words::sum(words::minus(start, i), 1),
        },
        None => Found {
            bucket: 1,
            reads: start,
        },
    }
}

// The segment of a key in bucket i, counted from the top of its range.
pub fn segment_of(heap: Heap, table: &Table, i: u64, key: u64) -> u64 {
    if heap.height == Height::One || i == heap.buckets {
        return 1;
    }
    let below = words::minus(bound(table, i), key);
    let width = words::power(heap.segments, words::minus(i, 1));
    words::minus(heap.segments, words::quotient(below, width))
}

// The upper end of segment k of bucket i.
pub fn upper_end(heap: Heap, table: &Table, i: u64, k: u64) -> u64 {
    if heap.height == Height::One || i == heap.buckets {
        return bound(table, i);
    }
    let width = words::power(heap.segments, words::minus(i, 1));
    let above = words::product(words::minus(heap.segments, k), width);
    words::minus(bound(table, i), above)
}

// u(1) after a removal with smallest key d and upper end t.
fn lowest_bound(heap: Heap, d: u64, t: u64) -> u64 {
    if heap.height == Height::Two {
        return words::least(words::minus(words::sum(d, heap.segments), 1), t);
    }
    d
}

// The bounds below bucket j after a removal there.
pub fn new_bounds(heap: Heap, table: &mut Table, j: u64, d: u64, t: u64) {
    set_bound(table, 1, lowest_bound(heap, d, t));
    for i in 2..j {
        let reach = words::sum(bound(table, words::minus(i, 1)), size(heap, i));
        set_bound(table, i, words::least(reach, t));
    }
}
