// How near to the bounds of docs/DATASHEET.md the counts of a run come, on maps built to be bad: nodes that fall through every bucket, arcs
// that are all decreases, removals that look at every bucket or at every segment. No node has a hold, which would come in as a cost does
// (document 02, paper 2). A line for each map and heap: r, m, B and the segments looked at, then for decreases, placements, looks and reads
// the count, its bound, and how many thousandths of the bound it is.
#![tactic(auto)]

ghost use Rattle.std.specs.Prelude.{◌≤◌};

use checks::Given;
use model::{Counts, Fault, Node, Run};
use std::io;
use theory::Levels;

fn print_number(rt: &impl Print, number: u64) -> io::Result<()> {
    rt.write_all(b",")?;
    rt.print(number)
}

// A count, its bound, and the share of it in thousandths; none where the bound is 0.
fn print_share(rt: &impl Print, count: u32, most: u64) -> io::Result<()> {
    let count = u64::from(count);
    print_number(rt, count)?;
    print_number(rt, most)?;
    match count.saturating_mul(1000).checked_div(most) {
        Some(share) => print_number(rt, share),
        None => rt.write_all(b",-"),
    }
}

#[derive(Clone, Copy)]
enum Heap {
    OneLevel,
    TwoLevel,
}

impl Heap {
    fn name(self) -> &'static [u8] {
        match self {
            Heap::OneLevel => b",one",
            Heap::TwoLevel => b",two",
        }
    }

    fn levels(self, map: Map) -> Levels {
        match self {
            Heap::OneLevel => Levels::One,
            Heap::TwoLevel => Levels::Two {
                segments: map.segments,
            },
        }
    }

    // The words of work for 4,096 nodes.
    fn work_words(self) -> usize
        ensures { result ≤ 16768 }
    {
        match self {
            Heap::OneLevel => 16448,
            Heap::TwoLevel => 16768,
        }
    }

    // How many segments a removal may look at.
    fn segments(self, map: Map) -> u32 {
        match self {
            Heap::OneLevel => 0,
            Heap::TwoLevel => map.segments,
        }
    }
}

// The counts of an accepted run beside m - r + 1, r × B + m - r + 1, r × (B + segments) and r × (B - 1) + 2 × placements, the last by
// document 02, paper 3.
fn print_shares(
    rt: &impl Print,
    map: Map,
    heap: Heap,
    reached: u32,
    buckets: u32,
    counts: Counts,
) -> io::Result<()> {
    let arcs = map.given.heads.len() as u64;
    let segments = u64::from(heap.segments(map));
    let removals = u64::from(reached);
    let spare = arcs.saturating_add(1).saturating_sub(removals);
    print_number(rt, removals)?;
    print_number(rt, arcs)?;
    print_number(rt, u64::from(buckets))?;
    print_number(rt, segments)?;
    print_share(rt, counts.decreases, spare)?;
    let held = removals.saturating_mul(u64::from(buckets));
    print_share(rt, counts.placements, held.saturating_add(spare))?;
    let looked_at = removals.saturating_mul(segments);
    print_share(rt, counts.looks, held.saturating_add(looked_at))?;
    let others = held.saturating_sub(removals);
    let twice = u64::from(counts.placements).saturating_mul(2);
    print_share(rt, counts.reads, others.saturating_add(twice))
}

// A map without holds, under the name of its lines, and K of its two-level heap.
#[derive(Clone, Copy)]
struct Map<'a> {
    name: &'a [u8],
    segments: u32,
    given: Given<'a>,
}

fn answer_of(map: Map, heap: Heap) -> Result<Run, Fault> {
    let mut distances = [0u32; 4096];
    let mut parents = [0u32; 4096];
    let mut roster = [0u32; 4096];
    let mut work = [0u32; 16768];
    runs::run(
        heap.levels(map),
        map.given,
        &mut distances,
        &mut parents,
        &mut roster,
        &mut work[..heap.work_words()],
    )
}

fn print_run(rt: &impl Print, map: Map, heap: Heap) -> io::Result<()> {
    rt.write_all(map.name)?;
    rt.write_all(heap.name())?;
    match answer_of(map, heap) {
        Ok(run) => print_shares(rt, map, heap, run.reached, run.buckets, run.counts)?,
        Err(fault) => {
            print_number(rt, u64::from(fault.kind.number()))?;
            print_number(rt, fault.place as u64)?;
        }
    }
    rt.write_all(b"\n")
}

fn run_both(rt: &impl Print, map: Map) -> io::Result<()> {
    print_run(rt, map, Heap::OneLevel)?;
    print_run(rt, map, Heap::TwoLevel)
}

// The words first, first + 1, first + 2 and so on.
fn count_up(list: &mut [u32], first: u32) {
    let mut next = first;
    for word in list {
        *word = next;
        next = next.wrapping_add(1);
    }
}

// Costs that come nearer to `near` by a divisor each time; those behind them stay, from where the span has come to 1.
fn approach(costs: &mut [u32], near: u32, far: u32, divisor: u32) {
    let mut span = far;
    for cost in costs {
        if span > 1 && near >= span {
            *cost = near - span;
        }
        span = span.checked_div(divisor).unwrap_or(0);
    }
}

// One arc of cost C leads to node 1, and from there one to each other node, all of the same distance but a few. Those few are the least of
// each bucket in turn, so that with each of them all others fall one bucket. Here by the sizes of the one-level heap.
fn fall_by_halves(rt: &impl Print) -> io::Result<()> {
    let mut starts = [4095u32; 4097];
    starts[0] = 0;
    starts[1] = 1;
    let mut heads = [0u32; 4095];
    count_up(&mut heads, 1);
    let mut costs = [1048575u32; 4095];
    approach(&mut costs[1..], 1048577, 1048576, 2);
    let map = Map {
        name: b"falling through buckets of one level",
        segments: 32,
        given: Given {
            nodes: 4096,
            ceiling: 1048575,
            source: Node(0),
            starts: &starts,
            heads: &heads,
            costs: &costs,
            holds: &[0u32; 4096],
        },
    };
    run_both(rt, map)
}

// The same by the sizes of the two-level heap with K = 32, whose segment of the last bucket but one is 32,768 keys wide.
fn fall_by_segments(rt: &impl Print) -> io::Result<()> {
    let mut starts = [4095u32; 4097];
    starts[0] = 0;
    starts[1] = 1;
    let mut heads = [0u32; 4095];
    count_up(&mut heads, 1);
    let mut costs = [1017920u32; 4095];
    costs[0] = 1048575;
    approach(&mut costs[2..], 1017921, 32768, 32);
    costs[1] = 33825;
    let map = Map {
        name: b"falling through buckets of two levels",
        segments: 32,
        given: Given {
            nodes: 4096,
            ceiling: 1048575,
            source: Node(0),
            starts: &starts,
            heads: &heads,
            costs: &costs,
            holds: &[0u32; 4096],
        },
    };
    run_both(rt, map)
}

// A chain of arcs of cost C: each key is found in one of the last two buckets.
fn look_at_every_bucket(rt: &impl Print) -> io::Result<()> {
    let mut starts = [0u32; 4097];
    count_up(&mut starts, 0);
    starts[4096] = 4095;
    let mut heads = [0u32; 4095];
    count_up(&mut heads, 1);
    let costs = [1048575u32; 4095];
    let map = Map {
        name: b"looks at every bucket",
        segments: 32,
        given: Given {
            nodes: 4096,
            ceiling: 1048575,
            source: Node(0),
            starts: &starts,
            heads: &heads,
            costs: &costs,
            holds: &[0u32; 4096],
        },
    };
    run_both(rt, map)
}

// A star of equal arcs: each key is found in the last segment of bucket 1.
fn look_at_every_segment(rt: &impl Print) -> io::Result<()> {
    let mut starts = [4095u32; 4097];
    starts[0] = 0;
    let mut heads = [0u32; 4095];
    count_up(&mut heads, 1);
    let costs = [63u32; 4095];
    let map = Map {
        name: b"looks at every segment",
        segments: 64,
        given: Given {
            nodes: 4096,
            ceiling: 63,
            source: Node(0),
            starts: &starts,
            heads: &heads,
            costs: &costs,
            holds: &[0u32; 4096],
        },
    };
    run_both(rt, map)
}

#[derive(Clone, Copy)]
struct Pair {
    tail: u32,
    head: u32,
}

// The next pair of nodes below 362 of which the first is the lower.
fn next(pair: Pair) -> Pair {
    if pair.head < 361 {
        return Pair {
            head: pair.head + 1,
            ..pair
        };
    }
    Pair {
        tail: pair.tail % 362 + 1,
        head: pair.tail % 362 + 2,
    }
}

// Node i is at distance 1,000 × i, and by it every later node comes nearer by 1,000.
fn cost_between(pair: Pair) -> u32 {
    let ahead = pair.head.saturating_sub(pair.tail) % 1000;
    (ahead * 2).saturating_sub(1) % 2000 * 1000
}

// The first pair of a tail: its arcs begin behind those made before.
fn begin(starts: &mut [u32], pair: Pair, arcs: usize) {
    let i = pair.tail as usize;
    if i < starts.len() && pair.head.saturating_sub(pair.tail) == 1 {
        starts[i] = (arcs % 65536) as u32;
    }
}

// An arc from each node to each later one.
fn pair_up(starts: &mut [u32], heads: &mut [u32], costs: &mut [u32]) {
    let mut pair = Pair { tail: 0, head: 1 };
    for (i, (head, cost)) in heads.iter_mut().zip(costs).enumerate() {
        *head = pair.head;
        *cost = cost_between(pair);
        pair = next(pair);
        begin(starts, pair, i + 1);
    }
}

fn decrease_at_every_arc(rt: &impl Print) -> io::Result<()> {
    let mut starts = [0u32; 363];
    let mut heads = [0u32; 65341];
    let mut costs = [0u32; 65341];
    pair_up(&mut starts, &mut heads, &mut costs);
    starts[0] = 0;
    starts[362] = 65341;
    let map = Map {
        name: b"every arc a decrease",
        segments: 64,
        given: Given {
            nodes: 362,
            ceiling: 721000,
            source: Node(0),
            starts: &starts,
            heads: &heads,
            costs: &costs,
            holds: &[0u32; 362],
        },
    };
    run_both(rt, map)
}

fn main(rt: HostRuntime) -> io::Result<()> {
    rt.write_all(b"map,heap,r,m,B,segments")?;
    rt.write_all(
        b",decreases,bound,share,placements,bound,share,looks,bound,share,reads,bound,share\n",
    )?;
    fall_by_halves(&rt)?;
    fall_by_segments(&rt)?;
    decrease_at_every_arc(&rt)?;
    look_at_every_bucket(&rt)?;
    look_at_every_segment(&rt)
}
