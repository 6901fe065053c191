// The planning file that rows make, in one byte more than are taken (document 01, "Planning file", and for the lines of holds document 02,
// paper 2).
use test_rows::bytes::append_number;
use test_rows::map::{HOLDS, place, quotient, word_at};
use test_rows::rows::Row;

pub type File = [u8; 65537];

// Row: bytes BYTE,END
pub fn fill_up(file: &mut File, at: usize, row: Row) -> usize {
    let end = (row.n2 as usize).min(65537);
    match file.get_mut(at..end) {
        Some(rest) => {
            rest.fill((row.n1 % 256) as u8);
            end
        }
        None => at,
    }
}

// An arc of the map, where so many leave each node.
fn append_arc(file: &mut File, at: usize, map: &[u32], arc: u32, each: u32) -> usize {
    let second = append_number(file, at, quotient(arc, each), b',');
    let third = append_number(file, second, word_at(map, place(b'h' as u32, arc)), b',');
    append_number(file, third, word_at(map, place(b'c' as u32, arc)), b'\n')
}

// Row: arcs FROM,END,EACH
pub fn append_arcs(file: &mut File, at: usize, map: &[u32], row: Row) -> usize {
    let mut next = at;
    for arc in row.n1..row.n2 {
        next = append_arc(file, next, map, arc, row.n3);
    }
    next
}

// Row: nodes FROM,END
pub fn append_holds(file: &mut File, at: usize, map: &[u32], row: Row) -> usize {
    let mut next = at;
    for node in row.n1..row.n2 {
        let hold = word_at(map, HOLDS as usize + node as usize);
        next = append_number(file, next, hold, b'\n');
    }
    next
}
