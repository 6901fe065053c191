// The writer of planning files on fixed cases, which stand in standard input, a row for each step (document 02, paper 5). Standard output
// repeats every row and has behind it what the row gave. The head of crates/test_write_cases/stdin says what each row is.
#![tactic(auto)]

use std::io;
use test_rows::map::Map;
use test_rows::{bytes, map, rows};

mod files;
mod lists;
mod printing;

// One row, told by the first letter of its word; gives back how many bytes the file that is being made then has.
fn act(
    rt: &impl Print,
    line: &[u8],
    map: &mut Map,
    file: &mut [u8; 1024],
    made: usize,
) -> io::Result<usize> {
    test_rows::printing::print_line(rt, line)?;
    let row = rows::row_of(line);
    let word = row.word;
    match word {
        b'w' => map::put_words(map, row, line),
        b'f' | b'd' => map::spread(map, row),
        b't' => lists::write_text(rt, row, map)?,
        b's' => lists::write_large(rt, row, map)?,
        b'a' => files::write_again(rt, row, bytes::made(file, made))?,
        b'r' => files::write_road(rt, row, bytes::made(file, made))?,
        _ => (),
    }
    Ok(match word {
        b'l' => bytes::append_line(file, made, line, row.text),
        b'a' | b'r' => 0,
        _ => made,
    })
}

fn act_all(rt: &impl Print, input: &[u8]) -> io::Result<()> {
    let mut map = [0u32; 143368];
    let mut file = [0u8; 1024];
    let mut made = 0;
    for line in input.split_inclusive(|byte| *byte == b'\n') {
        let row = line.strip_suffix(b"\n").unwrap_or(line);
        made = act(rt, row, &mut map, &mut file, made)?;
    }
    Ok(())
}

fn main(rt: HostRuntime) -> io::Result<()> {
    let mut input = [0u8; 65536];
    let got = streams::read_full(&mut rt.reader(), &mut input)?;
    act_all(&rt, &input[..got])
}
