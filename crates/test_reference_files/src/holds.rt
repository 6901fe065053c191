// The holds of a planning file, and the sums of its costs with them (document 02, paper 2).
use crate::reading;
use crate::reading::Header;
use test_reference_map::map::Lists;
use test_reference_map::refusal::{Refusal, refuse};
use test_reference_map::{map, words};

// The line of a node's hold stands behind line 1 and the lines of the arcs.
fn line_of(header: Header, node: u64) -> u64 {
    words::sum(words::sum(header.arcs, 2), node)
}

// The line behind all those that a file is to have.
pub fn line_past(header: Header) -> u64 {
    if header.with_holds {
        return line_of(header, header.nodes);
    }
    line_of(header, 0)
}

// 11 and 20 of the lines of the holds; the place past them.
fn read_lines(bytes: &[u8], header: Header, lists: &mut Lists, from: u64) -> Result<u64, Refusal> {
    let mut next = from;
    for v in 0..header.nodes {
        let Some(line) = reading::read_hold(bytes, next) else {
            return refuse(11, line_of(header, v));
        };
        if line.number > header.ceiling {
            return refuse(20, v);
        }
        map::set(lists, map::HOLDS, v, line.number);
        next = line.next;
    }
    Ok(next)
}

fn clear(n: u64, lists: &mut Lists) {
    for v in 0..n {
        map::set(lists, map::HOLDS, v, 0);
    }
}

// The holds from a place on, behind the lines of the arcs; with five fields there are no lines of them, and each is 0. The place past them.
pub fn read(bytes: &[u8], header: Header, lists: &mut Lists, from: u64) -> Result<u64, Refusal> {
    if header.with_holds {
        return read_lines(bytes, header, lists, from);
    }
    clear(header.nodes, lists);
    Ok(from)
}

// The first arc of node v whose cost and the node's hold together are above the ceiling.
fn first_above(lists: &Lists, v: u64, ceiling: u64) -> Option<u64> {
    let hold = map::hold(lists, v);
    map::arcs(lists, v).find(|arc| words::sum(map::cost(lists, *arc), hold) > ceiling)
}

// 8 of the sums, those of the source's arcs too.
pub fn check_sums(header: Header, lists: &Lists) -> Result<(), Refusal> {
    for v in 0..header.nodes {
        if let Some(arc) = first_above(lists, v, header.ceiling) {
            return refuse(8, arc);
        }
    }
    Ok(())
}
