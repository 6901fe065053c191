// The rows that have the map's lists written.
use crate::printing::{print_sums, print_text};
use checks::Given;
use model::{Fault, Node};
use std::io;
use test_rows::map::{COSTS, HEADS, HOLDS, part};
use test_rows::rows::Row;

fn write(row: Row, map: &[u32], buffer: &mut [u8]) -> Result<usize, Fault> {
    test_buffers::fill(buffer);
    let given = Given {
        nodes: row.n1,
        ceiling: row.n2,
        source: Node(row.n3),
        starts: part(map, 0, row.n5),
        heads: part(map, HEADS, row.n6),
        costs: part(map, COSTS, row.n7),
        holds: part(map, HOLDS, row.n8),
    };
    writer::write(given, row.n4, test_buffers::lent(buffer, row.n9 as usize))
}

// Row: text N,C,SOURCE,K STARTS,HEADS,COSTS,HOLDS BYTES
pub fn write_text(rt: &impl Print, row: Row, map: &[u32]) -> io::Result<()> {
    let mut buffer = [0u8; 1024];
    let answer = write(row, map, &mut buffer);
    print_text(rt, answer, &buffer)
}

// An array of this size is lent whole, so that its length needs no proof.
fn write_sums(
    rt: &impl Print,
    row: Row,
    map: &[u32],
    buffer: &mut [u8; 1213000],
) -> io::Result<()> {
    let answer = write(row, map, buffer);
    print_sums(rt, answer, buffer)
}

// Row: sums N,C,SOURCE,K STARTS,HEADS,COSTS,HOLDS BYTES
pub fn write_large(rt: &impl Print, row: Row, map: &[u32]) -> io::Result<()> {
    let mut buffer = [0u8; 1213000];
    write_sums(rt, row, map, &mut buffer)
}
