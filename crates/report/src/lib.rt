// What the program `plan` prints, written into a lent buffer (document 01, "Planning file"). By hand and not by Display: C lends the buffer too,
// and the archive needs no formatter and no memory of its own.
#![tactic(auto)]

ghost use Rattle.std.specs.Prelude.{◌+◌, ◌*◌, ◌≤◌, [], ◌∷◌, length};
ghost use Rattle.fields.specs.Fields.{comma, render_line};
ghost use Rattle.fields.specs.Writing.{Writes};
ghost use Rattle.report.specs.Report.{ended, refused_text, counts_line, heap_line, or_none, node_line, node_lines, accepted_text};

use fields::writing::{put_byte, put_bytes, put_field};
use model::{Arc, Fault, Node, Run};

// The last two fields of a line.
pub fn put_two(buffer: &mut [u8], at: usize, first: u64, second: u64) -> usize
    requires { at + 42 ≤ length buffer.old }
    ensures { Writes at (render_line comma (first ∷ second ∷ [])) buffer.old buffer.new result }
{
    let next = put_field(buffer, at, first, b',');
    put_field(buffer, next, second, b'\n')
}

// A word, and the comma behind it.
pub fn put_word(buffer: &mut [u8], at: usize, word: &[u8]) -> usize
    requires { at + length word.now + 1 ≤ length buffer.old }
    ensures { Writes at (ended word.now comma) buffer.old buffer.new result }
{
    let next = put_bytes(buffer, at, word);
    put_byte(buffer, next, b',')
}

// A distance or a parent arc, and the byte that ends it.
fn put_or_none(buffer: &mut [u8], at: usize, value: u32, end: u8) -> usize
    requires { at + 21 ≤ length buffer.old }
    ensures { Writes at (ended (or_none value) end) buffer.old buffer.new result }
{
    if value == 4294967295 {
        let next = put_byte(buffer, at, b'-');
        return put_byte(buffer, next, end);
    }
    put_field(buffer, at, value as u64, end)
}

pub fn write_refusal(buffer: &mut [u8], fault: Fault) -> usize
    requires { 64 ≤ length buffer.old }
    ensures { Writes 0 (refused_text fault) buffer.old buffer.new result }
{
    let next = put_word(buffer, 0, b"refused");
    put_two(buffer, next, fault.kind.number() as u64, fault.place as u64)
}

fn write_counts(
    buffer: &mut [u8],
    at: usize,
    nodes: u32,
    arcs: u32,
    reached: u32,
    decreases: u32,
) -> usize
    requires { at + 84 ≤ length buffer.old }
    ensures { Writes at (counts_line nodes arcs reached decreases) buffer.old buffer.new result }
{
    let second = put_field(buffer, at, nodes as u64, b',');
    let third = put_field(buffer, second, arcs as u64, b',');
    put_two(buffer, third, reached as u64, decreases as u64)
}

fn write_heap(buffer: &mut [u8], at: usize, word: &[u8], run: Run) -> usize
    requires { at + length word.now + 85 ≤ length buffer.old }
    ensures { Writes at
        (heap_line word.now run.buckets run.counts.placements run.counts.looks run.counts.reads)
        buffer.old buffer.new result }
{
    let second = put_word(buffer, at, word);
    let third = put_field(buffer, second, run.buckets as u64, b',');
    let fourth = put_field(buffer, third, run.counts.placements as u64, b',');
    put_two(
        buffer,
        fourth,
        run.counts.looks as u64,
        run.counts.reads as u64,
    )
}

fn write_node(buffer: &mut [u8], at: usize, v: Node, distance: u32, parent: Arc) -> usize
    requires { at + 64 ≤ length buffer.old }
    ensures { Writes at (node_line v.0 distance parent.0) buffer.old buffer.new result }
{
    let second = put_field(buffer, at, v.0 as u64, b',');
    let third = put_or_none(buffer, second, distance, b',');
    put_or_none(buffer, third, parent.0, b'\n')
}

fn write_nodes(
    buffer: &mut [u8],
    at: usize,
    nodes: u32,
    distances: &[u32],
    parents: &[u32],
) -> usize
    requires nodes_in_bounds { at + 64 * nodes ≤ length buffer.old }
    requires lists_hold_nodes { (nodes ≤ length distances.now) × (nodes ≤ length parents.now) }
    ensures { Writes at (node_lines nodes distances.now parents.now)
        buffer.old buffer.new result }
{
    let mut next = at;
    for v in 0..nodes {
        let i = v as usize;
        next = write_node(buffer, next, Node(v), distances[i], Arc(parents[i]));
    }
    next
}

// Decreases, distances and parents are equal for both heaps, and the one-level heap's are told.
pub fn write_answer(
    buffer: &mut [u8],
    nodes: u32,
    arcs: u32,
    one: Run,
    two: Run,
    distances: &[u32],
    parents: &[u32],
) -> usize
    requires nodes_in_bounds { 512 + 64 * nodes ≤ length buffer.old }
    requires lists_hold_nodes { (nodes ≤ length distances.now) × (nodes ≤ length parents.now) }
    ensures { Writes 0
        (accepted_text nodes arcs one.reached one.counts.decreases
        one.buckets one.counts.placements one.counts.looks one.counts.reads
        two.buckets two.counts.placements two.counts.looks two.counts.reads distances.now parents.now)
        buffer.old buffer.new result }
{
    let second = write_counts(buffer, 0, nodes, arcs, one.reached, one.counts.decreases);
    let third = write_heap(buffer, second, b"one", one);
    let next = write_heap(buffer, third, b"two", two);
    write_nodes(buffer, next, nodes, distances, parents)
}
