// A planning file read into the lists of a map, and the text that `plan` prints of it (document 01, "Planning file" and "What a call
// returns", and for the holds document 02, paper 2).
use crate::printing::Text;
use crate::reading::{ArcLine, Header};
use crate::{holds, reading};
use test_reference_map::case::{Case, Counts};
use test_reference_map::map::Lists;
use test_reference_map::nodes::Table;
use test_reference_map::refusal::{Refusal, refuse};
use test_reference_map::{map, nodes, words};

// 1, 4, 2, 3 and 9 of line 1.
fn check_numbers(header: Header) -> Result<(), Refusal> {
    let n = header.nodes;
    if n < 1 || n > 4096 {
        return refuse(1, 0);
    }
    if header.arcs > 65536 {
        return refuse(4, 0);
    }
    if header.ceiling > 1048575 {
        return refuse(2, 0);
    }
    if header.source >= n {
        return refuse(3, 0);
    }
    if header.segments < 2 || header.segments > 64 {
        return refuse(9, 0);
    }
    Ok(())
}

// 10 with the words that `plan` lends. Of the holds it lends 512: where these are too few, so are the starts.
fn check_lent(header: Header) -> Result<(), Refusal> {
    if header.nodes > 512 {
        return refuse(10, 0);
    }
    if header.arcs > 2048 {
        return refuse(10, 1);
    }
    Ok(())
}

// Line 1: 11, then what its numbers are refused for.
fn read_header(bytes: &[u8]) -> Result<Header, Refusal> {
    let Some(header) = reading::read_header(bytes) else {
        return refuse(11, 1);
    };
    check_numbers(header)?;
    check_lent(header)?;
    Ok(header)
}

// The line of an arc behind an arc of a tail: 11, 12, 7 and 8.
fn read_arc(
    bytes: &[u8],
    header: Header,
    arc: u64,
    last: u64,
    from: u64,
) -> Result<ArcLine, Refusal> {
    let Some(line) = reading::read_arc(bytes, from) else {
        return refuse(11, words::sum(arc, 2));
    };
    if line.tail < last || line.tail >= header.nodes {
        return refuse(12, arc);
    }
    if line.head >= header.nodes {
        return refuse(7, arc);
    }
    if line.cost > header.ceiling {
        return refuse(8, arc);
    }
    Ok(line)
}

// The nodes after one tail up to the next begin with this arc.
fn begin(lists: &mut Lists, after: u64, tail: u64, arc: u64) {
    for v in after..tail {
        map::set(lists, map::STARTS, words::sum(v, 1), arc);
    }
}

fn take_arc(lists: &mut Lists, last: u64, line: ArcLine, arc: u64) {
    begin(lists, last, line.tail, arc);
    map::set(lists, map::HEADS, arc, line.head);
    map::set(lists, map::COSTS, arc, line.cost);
}

// The lines of the arcs; the place past them.
fn read_arcs(bytes: &[u8], header: Header, lists: &mut Lists) -> Result<u64, Refusal> {
    let m = header.arcs;
    let mut next = header.next;
    let mut last = 0;
    for arc in 0..m {
        let line = read_arc(bytes, header, arc, last, next)?;
        take_arc(lists, last, line, arc);
        next = line.next;
        last = line.tail;
    }
    begin(lists, last, header.nodes, m);
    Ok(next)
}

// Line 1 of a file; its arcs and holds are put into the lists, of which the first word is 0.
pub fn read(bytes: &[u8], lists: &mut Lists) -> Result<Header, Refusal> {
    if bytes.len() > 65536 {
        return refuse(13, 0);
    }
    let header = read_header(bytes)?;
    let holds = read_arcs(bytes, header, lists)?;
    let end = holds::read(bytes, header, lists, holds)?;
    // Nothing is left over behind the lines.
    if end != bytes.len() as u64 {
        return refuse(11, holds::line_past(header));
    }
    holds::check_sums(header, lists)?;
    Ok(header)
}

// The run that `plan` makes of a file that it takes.
pub fn case_of(header: Header) -> Case {
    let nodes = (header.nodes % 4294967296) as u32;
    let arcs = (header.arcs % 4294967296) as u32;
    Case {
        nodes,
        ceiling: (header.ceiling % 4294967296) as u32,
        source: (header.source % 4294967296) as u32,
        segments: (header.segments % 4294967296) as u32,
        starts: 513,
        heads: arcs,
        costs: arcs,
        holds: nodes,
        distances: 512,
        parents: 512,
        roster: 512,
        work: 2432,
    }
}

// The text of a refusal.
pub fn print_refusal(output: &mut Text, found: Refusal) {
    output.word(b"refused,");
    output.line(&[found.number, found.place]);
}

// n, m, r and decreases.
fn print_sizes(output: &mut Text, header: Header, counts: Counts) {
    output.line(&[header.nodes, header.arcs, counts.reached, counts.decreases]);
}

// The line of a heap, behind its name: B, placements, looks and reads, the last by document 02, paper 3.
fn print_counts(output: &mut Text, name: &[u8], counts: Counts) {
    output.word(name);
    output.put(b',');
    output.line(&[
        counts.buckets,
        counts.placements,
        counts.looks,
        counts.reads,
    ]);
}

fn print_nodes(output: &mut Text, n: u64, table: &Table) {
    for v in 0..n {
        let distance = nodes::get(table, nodes::DISTANCE, v);
        let parent = nodes::get(table, nodes::PARENT, v);
        output.line(&[v, distance, parent]);
    }
}

// The text of a file that is taken: its sizes, the lines of both heaps and of the nodes.
pub fn print_answer(output: &mut Text, header: Header, one: Counts, two: Counts, table: &Table) {
    print_sizes(output, header, one);
    print_counts(output, b"one", one);
    print_counts(output, b"two", two);
    print_nodes(output, header.nodes, table);
}
