// The row that has the file read. Lists are lent with words of no meaning in them, and all their words go into the sums that are printed, so
// that every word written or left shows.
use dimacs::RoadSize;
use model::Fault;
use std::io;
use test_rows::lists::front;
use test_rows::printing::{print_number, print_sums};
use test_rows::rows::Row;

// Row: read C STARTS,HEADS,COSTS SHOWN
pub fn read(rt: &impl Print, row: Row, file: &[u8]) -> io::Result<()> {
    let mut starts = [1000003u32; 4100];
    let mut heads = [2000003u32; 65540];
    let mut costs = [3000017u32; 65540];
    let answer = dimacs::read(
        file,
        row.n1,
        front(&mut starts, row.n2),
        front(&mut heads, row.n3),
        front(&mut costs, row.n4),
    );
    print_file(rt, file)?;
    print_answer(rt, answer)?;
    if row.n5 > 0 {
        print_words(rt, b"starts", &starts, row.n5)?;
        print_words(rt, b"heads", &heads, row.n5)?;
        print_words(rt, b"costs", &costs, row.n5)?;
    }
    rt.write_all(b"sums")?;
    print_sums(rt, &starts)?;
    print_sums(rt, &heads)?;
    print_sums(rt, &costs)?;
    rt.write_all(b"\n")
}

fn print_file(rt: &impl Print, file: &[u8]) -> io::Result<()> {
    rt.write_all(b"bytes ")?;
    rt.print(file.len() as u64)?;
    print_sums(rt, file)?;
    rt.write_all(b"\n")
}

// Number and place, n and m.
fn print_answer(rt: &impl Print, answer: Result<RoadSize, Fault>) -> io::Result<()> {
    match answer {
        Ok(size) => print_numbers(rt, [0, 0, size.nodes as u64, size.arcs as u64]),
        Err(fault) => {
            print_numbers(
                rt,
                [u64::from(fault.kind.number()), fault.place as u64, 0, 0],
            )
        }
    }
}

fn print_numbers(rt: &impl Print, numbers: [u64; 4]) -> io::Result<()> {
    rt.write_all(b"answer")?;
    for number in numbers {
        print_number(rt, number)?;
    }
    rt.write_all(b"\n")
}

// The first words of a list.
fn print_words(rt: &impl Print, name: &[u8], list: &[u32], count: u32) -> io::Result<()> {
    rt.write_all(name)?;
    for word in list.iter().take(count as usize) {
        print_number(rt, u64::from(*word))?;
    }
    rt.write_all(b"\n")
}
