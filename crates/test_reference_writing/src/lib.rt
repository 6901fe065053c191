// A plain writer of planning files (document 02, paper 5). It asks for a map that no check turns down, and writes nothing past the file's end.
#![tactic(auto)]

use test_reference_map::case::Case;
use test_reference_map::map;
use test_reference_map::map::Lists;
use test_rows::bytes;

// Each function that writes gives the place past what it has written.
fn append(file: &mut [u8], at: usize, number: u64, ended_by: u8) -> usize {
    bytes::append_number(file, at, (number % 4294967296) as u32, ended_by)
}

fn any_hold(n: u64, lists: &Lists) -> bool {
    (0..n).any(|v| map::hold(lists, v) > 0)
}

// Of line 1 the fields before K.
fn write_sizes(file: &mut [u8], case: Case) -> usize {
    let second = append(file, 0, u64::from(case.nodes), b',');
    let third = append(file, second, u64::from(case.heads), b',');
    let fourth = append(file, third, u64::from(case.ceiling), b',');
    append(file, fourth, u64::from(case.source), b',')
}

fn write_header(file: &mut [u8], case: Case, held: bool) -> usize {
    let fifth = write_sizes(file, case);
    if held {
        let sixth = append(file, fifth, u64::from(case.segments), b',');
        return append(file, sixth, 1, b'\n');
    }
    append(file, fifth, u64::from(case.segments), b'\n')
}

fn write_arc(file: &mut [u8], at: usize, tail: u64, arc: u64, lists: &Lists) -> usize {
    let second = append(file, at, tail, b',');
    let third = append(file, second, map::head(lists, arc), b',');
    append(file, third, map::cost(lists, arc), b'\n')
}

fn write_arcs(file: &mut [u8], from: usize, n: u64, lists: &Lists) -> usize {
    let mut next = from;
    for tail in 0..n {
        for arc in map::arcs(lists, tail) {
            next = write_arc(file, next, tail, arc, lists);
        }
    }
    next
}

fn write_holds(file: &mut [u8], from: usize, n: u64, lists: &Lists) -> usize {
    let mut next = from;
    for v in 0..n {
        next = append(file, next, map::hold(lists, v), b'\n');
    }
    next
}

// The planning file of a map; how many bytes it has.
pub fn write(file: &mut [u8], case: Case, lists: &Lists) -> usize {
    let n = u64::from(case.nodes);
    let held = any_hold(n, lists);
    let arcs = write_header(file, case, held);
    let holds = write_arcs(file, arcs, n, lists);
    if held {
        return write_holds(file, holds, n, lists);
    }
    holds
}
