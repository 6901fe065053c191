// The program `routes`: a planning file on standard input, the routes of its nodes on standard output (document 01, "Routes" and "Planning
// file").
#![tactic(auto)]

use std::io;

fn main(rt: HostRuntime) -> io::Result<()> {
    // One byte more than the most that is taken, so that a longer input is noticed.
    let mut input = [0u8; 65537];
    let mut starts = [0u32; 513];
    let mut heads = [0u32; 2048];
    let mut costs = [0u32; 2048];
    let mut holds = [0u32; 512];
    let mut distances = [0u32; 512];
    let mut parents = [0u32; 512];
    let mut roster = [0u32; 512];
    let mut work = [0u32; 2432];
    let mut route = [0u32; 512];
    let mut output = [0u8; 1056800];
    let got = streams::read_full(&mut rt.reader(), &mut input)?;
    let written = itineraries::answer(
        &input[..got],
        &mut starts,
        &mut heads,
        &mut costs,
        &mut holds,
        &mut distances,
        &mut parents,
        &mut roster,
        &mut work,
        &mut route,
        &mut output,
    );
    rt.write_all(&output[..written])
}
