// The reader of road files on fixed cases, which stand in standard input, a row for each step (document 02, paper 1). Standard output
// repeats every row and has behind it what the row gave. The head of crates/test_road_cases/stdin says what each row is.
#![tactic(auto)]

use road_file::File;
use std::io;
use test_rows::{bytes, rows};

mod reading;
mod road_file;

// One row, told by the first letter of its word; gives back how many bytes the road file then has.
fn act(rt: &impl Print, line: &[u8], file: &mut File, written: usize) -> io::Result<usize> {
    test_rows::printing::print_line(rt, line)?;
    let row = rows::row_of(line);
    let word = row.word;
    if word == b'r' {
        reading::read(rt, row, bytes::made(file, written))?;
    }
    Ok(match word {
        b'f' => 0,
        b'l' => bytes::append_line(file, written, line, row.text),
        b'h' => bytes::append(file, written, line, row.text),
        b'b' => road_file::append_bytes(file, written, line, row.text),
        b't' => road_file::append_times(file, written, line, row),
        b'a' => road_file::append_arcs(file, written, row),
        _ => written,
    })
}

fn act_all(rt: &impl Print, input: &[u8]) -> io::Result<()> {
    let mut file = [0u8; 1400000];
    let mut written = 0;
    for line in input.split_inclusive(|byte| *byte == b'\n') {
        let row = line.strip_suffix(b"\n").unwrap_or(line);
        written = act(rt, row, &mut file, written)?;
    }
    Ok(())
}

fn main(rt: HostRuntime) -> io::Result<()> {
    let mut input = [0u8; 65536];
    let got = streams::read_full(&mut rt.reader(), &mut input)?;
    act_all(&rt, &input[..got])
}
