// The road file that rows make: 65,536 arcs of 20 bytes and some more (document 02, paper 1).
use test_rows::rows::Row;
use test_rows::{bytes, rows};

pub type File = [u8; 1400000];

// Row: bytes BYTE,BYTE,..
pub fn append_bytes(file: &mut [u8], at: usize, line: &[u8], from: usize) -> usize {
    let numbers = line.get(from..).unwrap_or(&[]);
    let mut next = at;
    for number in numbers.split_inclusive(|byte| *byte < b'0') {
        let read = rows::field_at(number, 0);
        next = bytes::put(file, next, (read.value % 256) as u8);
    }
    next
}

// Row: times COUNT TEXT
pub fn append_times(file: &mut [u8], at: usize, line: &[u8], row: Row) -> usize {
    let mut next = at;
    for _ in 0..row.n1 {
        next = bytes::append_line(file, next, line, row.after);
    }
    next
}

// Number i of those that begin with a first one and go on by a step, all of them below a modulus.
fn stepped(first: u32, step: u32, i: u32, modulus: u32) -> u32 {
    let number = u64::from(first) + u64::from(step) * u64::from(i);
    if modulus == 0 {
        return 0;
    }
    (number % u64::from(modulus)) as u32
}

// Nodes are counted from 1.
fn node(first: u32, step: u32, i: u32, n: u32) -> u32 {
    stepped(first, step, i, n).wrapping_add(1)
}

// The `a` line of arc i.
fn append_arc(file: &mut [u8], at: usize, row: Row, i: u32) -> usize {
    let tail = node(row.n4, row.n5, i.checked_div(row.n2).unwrap_or(0), row.n3);
    let head = node(row.n6, row.n7, i, row.n3);
    let cost = stepped(row.n8, row.n9, i, row.n10);
    let first = bytes::append(file, at, b"a ", 0);
    let second = bytes::append_number(file, first, tail, b' ');
    let third = bytes::append_number(file, second, head, b' ');
    bytes::append_number(file, third, cost, b'\n')
}

// Row: arcs COUNT,EACH,N TAIL,STEP HEAD,STEP COST,STEP,MODULUS
pub fn append_arcs(file: &mut [u8], at: usize, row: Row) -> usize {
    let mut next = at;
    for i in 0..row.n1 {
        next = append_arc(file, next, row, i);
    }
    next
}
