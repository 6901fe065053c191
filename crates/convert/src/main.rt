// The program `convert`: a road file on standard input, the ceiling, the source (from 0) and K as arguments, its planning file on standard
// output (document 02, papers 1 and 5).
#![tactic(auto)]

use fields::reading::field_at;
use model::Node;
use std::env::FillError;
use std::io;
use std::rt::Env;

// An argument of 1 to 7 digits is a field once a line feed stands behind it; one that is missing or longer than the text has length 0.
fn argument(rt: &impl Env, i: usize) -> Option<u32> {
    let mut text = [b'\n'; 9];
    let got = rt.arg(i, &mut text).unwrap_or(0);
    let found = field_at(&text, 0, b'\n')?;
    if found.taken == got + 1 {
        Some(found.value)
    } else {
        None
    }
}

// Whether an argument is there, of whatever length.
fn is_given(rt: &impl Env, i: usize) -> bool {
    let mut text = [0u8; 9];
    match rt.arg(i, &mut text) {
        Err(FillError::NotPresent) => false,
        _ => true,
    }
}

fn tell_use(rt: &impl Eprint) -> io::Result<()> {
    rt.eprintln(
        "convert: use: convert C SOURCE K < FILE, where C, SOURCE and K are numbers of at most 7 digits",
    )
}

fn convert(rt: &(impl Input + Print), ceiling: u32, source: u32, segments: u32) -> io::Result<()> {
    // One byte more than the most that is taken, so that a longer input is noticed.
    let mut input = [0u8; 65537];
    let mut starts = [0u32; 513];
    let mut heads = [0u32; 2048];
    let mut costs = [0u32; 2048];
    let mut output = [0u8; 40992];
    let got = streams::read_full(&mut rt.reader(), &mut input)?;
    let written = conversion::answer(
        &input[..got],
        ceiling,
        Node(source),
        segments,
        &mut starts,
        &mut heads,
        &mut costs,
        &mut output,
    );
    rt.write_all(&output[..written])
}

fn main(rt: HostRuntime) -> io::Result<()> {
    let Some(ceiling) = argument(&rt, 1) else {
        return tell_use(&rt);
    };
    let Some(source) = argument(&rt, 2) else {
        return tell_use(&rt);
    };
    let Some(segments) = argument(&rt, 3) else {
        return tell_use(&rt);
    };
    if is_given(&rt, 4) {
        return tell_use(&rt);
    }
    convert(&rt, ceiling, source, segments)
}
