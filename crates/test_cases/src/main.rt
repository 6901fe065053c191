// The planner on fixed cases, which stand in standard input, a row for each step (document 01, "What a call returns" and "Edges", and
// document 02, papers 2, 3 and 6). Standard output repeats every row and has behind it what the row gave. The head of crates/test_cases/stdin says
// what each row is.
#![tactic(auto)]

use planning_file::File;
use std::io;
use test_rows::map::Map;
use test_rows::{bytes, map, rows};

mod calls;
mod planning_file;
mod printing;

// One row, told by the first letter of its word; gives back how many bytes the planning file then has.
fn act(
    rt: &impl Print,
    line: &[u8],
    map: &mut Map,
    file: &mut File,
    written: usize,
) -> io::Result<usize> {
    test_rows::printing::print_line(rt, line)?;
    let row = rows::row_of(line);
    let word = row.word;
    match word {
        b'w' => map::put_words(map, row, line),
        b'f' | b'd' => map::spread(map, row),
        b'o' | b't' | b's' => calls::run(rt, row, map)?,
        b'r' => calls::walk(rt, row, map)?,
        b'p' => calls::plan(rt, bytes::made(file, written))?,
        b'i' => calls::read(rt, row, bytes::made(file, written))?,
        _ => (),
    }
    Ok(match word {
        b'l' => bytes::append_line(file, written, line, row.text),
        b'h' => bytes::append(file, written, line, row.text),
        b'b' => planning_file::fill_up(file, written, row),
        b'a' => planning_file::append_arcs(file, written, map, row),
        b'n' => planning_file::append_holds(file, written, map, row),
        b'p' | b'i' => 0,
        _ => written,
    })
}

fn act_all(rt: &impl Print, input: &[u8]) -> io::Result<()> {
    let mut map = [0u32; 143368];
    let mut file = [0u8; 65537];
    let mut written = 0;
    for line in input.split_inclusive(|byte| *byte == b'\n') {
        let row = line.strip_suffix(b"\n").unwrap_or(line);
        written = act(rt, row, &mut map, &mut file, written)?;
    }
    Ok(())
}

fn main(rt: HostRuntime) -> io::Result<()> {
    let mut input = [0u8; 65536];
    let got = streams::read_full(&mut rt.reader(), &mut input)?;
    act_all(&rt, &input[..got])
}
