// The program `budget`: a line n,m,C,K on standard input, the most heap operations of both heaps on standard output.
#![tactic(auto)]

use std::io;

fn main(rt: HostRuntime) -> io::Result<()> {
    // A line of four fields takes at most 32 bytes; one byte more shows that something is left over.
    let mut input = [0u8; 64];
    let mut output = [0u8; 320];
    let got = streams::read_full(&mut rt.reader(), &mut input)?;
    let written = budgets::answer(&input[..got], &mut output);
    rt.write_all(&output[..written])
}
