// Runs to a destination on fixed cases, which stand in standard input, a row for each step (document 02, paper 7). Standard output repeats
// every row and has behind it what the row gave. The head of crates/test_destination_cases/stdin says what each row is.
#![tactic(auto)]

use calls::Lent;
use std::io;
use test_rows::map::Map;
use test_rows::{map, rows};

mod calls;
mod printing;

// One row, told by the first letter of its word; gives back how many words are then lent of each list.
fn act(rt: &impl Print, line: &[u8], map: &mut Map, lent: Lent) -> io::Result<Lent> {
    test_rows::printing::print_line(rt, line)?;
    let row = rows::row_of(line);
    let word = row.word;
    match word {
        b'w' => map::put_words(map, row, line),
        b'f' | b'd' => map::spread(map, row),
        b'o' | b't' | b'b' | b's' => calls::run(rt, row, lent, map)?,
        _ => (),
    }
    Ok(match word {
        b'l' => Lent::from(row),
        _ => lent,
    })
}

fn act_all(rt: &impl Print, input: &[u8]) -> io::Result<()> {
    let mut map = [0u32; 143368];
    let mut lent = Lent::from(rows::row_of(b""));
    for line in input.split_inclusive(|byte| *byte == b'\n') {
        let row = line.strip_suffix(b"\n").unwrap_or(line);
        lent = act(rt, row, &mut map, lent)?;
    }
    Ok(())
}

fn main(rt: HostRuntime) -> io::Result<()> {
    let mut input = [0u8; 65536];
    let got = streams::read_full(&mut rt.reader(), &mut input)?;
    act_all(&rt, &input[..got])
}
