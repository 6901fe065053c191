// The rows that have a file read and what it tells written: a planning file, and a road file with C, source and K of the row (document 02,
// papers 1 and 5).
use crate::printing::print_text;
use checks::Given;
use dimacs::RoadSize;
use model::{Fault, Node};
use reader::PlanHeader;
use std::io;
use test_rows::map::part;
use test_rows::rows::Row;

// What a file or a row tells beside the lists.
#[derive(Clone, Copy)]
struct Told {
    nodes: u32,
    arcs: u32,
    ceiling: u32,
    source: u32,
    segments: u32,
    room: u32,
}

// The lists that a file is read into.
#[derive(Drop)]
struct Lists {
    starts: [u32; 65],
    heads: [u32; 128],
    costs: [u32; 128],
    holds: [u32; 64],
}

fn lists_with(holds: [u32; 64]) -> Lists {
    Lists {
        starts: [1000003; 65],
        heads: [2000003; 128],
        costs: [3000017; 128],
        holds,
    }
}

fn write(told: Told, lists: &Lists, buffer: &mut [u8]) -> Result<usize, Fault> {
    let given = Given {
        nodes: told.nodes,
        ceiling: told.ceiling,
        source: Node(told.source),
        starts: part(&lists.starts, 0, told.nodes.wrapping_add(1)),
        heads: part(&lists.heads, 0, told.arcs),
        costs: part(&lists.costs, 0, told.arcs),
        holds: part(&lists.holds, 0, told.nodes),
    };
    let bytes = test_buffers::lent(buffer, told.room as usize);
    writer::write(given, told.segments, bytes)
}

// What was read of a planning file, unless it was refused.
fn write_plan(
    read: Result<PlanHeader, Fault>,
    room: u32,
    lists: &Lists,
    buffer: &mut [u8],
) -> Result<usize, Fault> {
    let header = read?;
    let told = Told {
        nodes: header.nodes,
        arcs: header.arcs,
        ceiling: header.ceiling,
        source: header.source.0,
        segments: header.segments,
        room,
    };
    write(told, lists, buffer)
}

// Row: again BYTES
pub fn write_again(rt: &impl Print, row: Row, file: &[u8]) -> io::Result<()> {
    let mut lists = lists_with([8000009; 64]);
    let mut buffer = [0u8; 1024];
    test_buffers::fill(&mut buffer);
    let read = reader::read(
        file,
        &mut lists.starts,
        &mut lists.heads,
        &mut lists.costs,
        &mut lists.holds,
    );
    let answer = write_plan(read, row.n1, &lists, &mut buffer);
    print_text(rt, answer, &buffer)
}

// The same of a road file, with C, source, K and the bytes lent of the row.
fn write_roads(
    read: Result<RoadSize, Fault>,
    row: Row,
    lists: &Lists,
    buffer: &mut [u8],
) -> Result<usize, Fault> {
    let size = read?;
    let told = Told {
        nodes: size.nodes,
        arcs: size.arcs,
        ceiling: row.n1,
        source: row.n2,
        segments: row.n3,
        room: row.n4,
    };
    write(told, lists, buffer)
}

// Row: road C,SOURCE,K BYTES
// A road file tells of no holds.
pub fn write_road(rt: &impl Print, row: Row, file: &[u8]) -> io::Result<()> {
    let mut lists = lists_with([0; 64]);
    let mut buffer = [0u8; 1024];
    test_buffers::fill(&mut buffer);
    let read = dimacs::read(
        file,
        row.n1,
        &mut lists.starts,
        &mut lists.heads,
        &mut lists.costs,
    );
    let answer = write_roads(read, row, &lists, &mut buffer);
    print_text(rt, answer, &buffer)
}
