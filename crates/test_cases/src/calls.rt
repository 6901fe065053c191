// The rows that call the planner. Lists are lent with words of no meaning in them, and all their words go into the sums that are printed,
// so that every word written or left shows.
use checks::Given;
use model::{Fault, Node, Run};
use std::io;
use test_rows::bytes::made;
use test_rows::lists::front;
use test_rows::map::{COSTS, HEADS, HOLDS, PARENTS, part};
use test_rows::printing::{print_sums, print_words};
use test_rows::rows::Row;
use theory::Levels;

// Row: one N,C,SOURCE STARTS,HEADS,COSTS,HOLDS DISTANCES,PARENTS,ROSTER,WORK
// Row: two N,C,SOURCE STARTS,HEADS,COSTS,HOLDS DISTANCES,PARENTS,ROSTER,WORK K
// A heap with one level has no segments.
fn search(rt: &impl Print, row: Row, segments: Option<u32>, map: &[u32]) -> io::Result<()> {
    let mut distances = [1000001u32; 4096];
    let mut parents = [2000003u32; 4096];
    let mut roster = [3000017u32; 4096];
    let mut work = [5000011u32; 16768];
    let answer = answer_of(
        row,
        segments,
        map,
        front(&mut distances, row.n8),
        front(&mut parents, row.n9),
        front(&mut roster, row.n10),
        front(&mut work, row.n11),
    );
    crate::printing::print_run(rt, answer)?;
    print_lists(rt, &[&distances, &parents, &roster, &work])?;
    print_roster(rt, row, &roster)
}

fn answer_of(
    row: Row,
    segments: Option<u32>,
    map: &[u32],
    distances: &mut [u32],
    parents: &mut [u32],
    roster: &mut [u32],
    work: &mut [u32],
) -> Result<Run, Fault> {
    let given = Given {
        nodes: row.n1,
        ceiling: row.n2,
        source: Node(row.n3),
        starts: part(map, 0, row.n4),
        heads: part(map, HEADS, row.n5),
        costs: part(map, COSTS, row.n6),
        holds: part(map, HOLDS, row.n7),
    };
    let levels = match segments {
        None => Levels::One,
        Some(segments) => Levels::Two { segments },
    };
    runs::run(levels, given, distances, parents, roster, work)
}

// A row scan has the roster's lent words behind each run, so that their order can be read.
fn print_roster(rt: &impl Print, row: Row, roster: &[u32]) -> io::Result<()> {
    if row.word == b's' {
        rt.write_all(b"roster")?;
        print_words(rt, part(roster, 0, row.n10))?;
        rt.write_all(b"\n")?;
    }
    Ok(())
}

fn print_lists(rt: &impl Print, lists: &[&[u32]]) -> io::Result<()> {
    for list in lists {
        print_sums(rt, list)?;
    }
    rt.write_all(b"\n")
}

// Row: route N,SOURCE,DESTINATION STARTS,HEADS,PARENTS ROUTE
pub fn walk(rt: &impl Print, row: Row, map: &[u32]) -> io::Result<()> {
    let mut route = [7000003u32; 4100];
    let answer = route::route(
        row.n1,
        Node(row.n2),
        part(map, 0, row.n4),
        part(map, HEADS, row.n5),
        part(map, PARENTS, row.n6),
        Node(row.n3),
        front(&mut route, row.n7),
    );
    crate::printing::print_route(rt, answer)?;
    print_sums(rt, &route)?;
    rt.write_all(b"\n")
}

// Row: plan
pub fn plan(rt: &impl Print, file: &[u8]) -> io::Result<()> {
    let mut starts = [1000003u32; 513];
    let mut heads = [2000003u32; 2048];
    let mut costs = [3000017u32; 2048];
    let mut holds = [8000009u32; 512];
    let mut distances = [4000037u32; 512];
    let mut parents = [5000011u32; 512];
    let mut roster = [6000011u32; 512];
    let mut work = [7000003u32; 2432];
    let mut output = [128u8; 33280];
    let length = planning::answer(
        file,
        &mut starts,
        &mut heads,
        &mut costs,
        &mut holds,
        &mut distances,
        &mut parents,
        &mut roster,
        &mut work,
        &mut output,
    );
    print_file(rt, file, &output, length)?;
    print_lists(
        rt,
        &[
            &starts, &heads, &costs, &holds, &distances, &parents, &roster, &work,
        ],
    )
}

// Row: into STARTS,HEADS,COSTS,HOLDS
pub fn read(rt: &impl Print, row: Row, file: &[u8]) -> io::Result<()> {
    let mut starts = [1000003u32; 4100];
    let mut heads = [2000003u32; 2050];
    let mut costs = [3000017u32; 2050];
    let mut holds = [8000009u32; 4100];
    let answer = reader::read(
        file,
        front(&mut starts, row.n1),
        front(&mut heads, row.n2),
        front(&mut costs, row.n3),
        front(&mut holds, row.n4),
    );
    print_bytes(rt, file)?;
    crate::printing::print_read(rt, answer)?;
    print_lists(rt, &[&starts, &heads, &costs, &holds])
}

fn print_bytes(rt: &impl Print, file: &[u8]) -> io::Result<()> {
    rt.write_all(b"bytes ")?;
    rt.print(file.len() as u64)?;
    print_sums(rt, file)?;
    rt.write_all(b"\n")
}

// All of the output is in its sums, what was not written too.
fn print_file(rt: &impl Print, file: &[u8], output: &[u8; 33280], length: usize) -> io::Result<()> {
    print_bytes(rt, file)?;
    rt.write_all(made(output, length))?;
    rt.write_all(b"sums")?;
    print_sums(rt, output)
}

// The rows that make a run; a row scan makes both.
pub fn run(rt: &impl Print, row: Row, map: &[u32]) -> io::Result<()> {
    let segments = Some(row.n12);
    match row.word {
        b'o' => search(rt, row, None, map),
        b't' => search(rt, row, segments, map),
        _ => {
            search(rt, row, None, map)?;
            search(rt, row, segments, map)
        }
    }
}
