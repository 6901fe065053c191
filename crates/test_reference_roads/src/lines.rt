// The lines of a road file: fields as in a planning file, parted by one space.
use test_reference_files::reading;
use test_reference_map::words;

// What a line is, and its numbers; the nodes of an arc are counted from 1.
#[derive(Clone, Copy)]
pub enum Kind {
    Comment,
    Problem { nodes: u64, arcs: u64 },
    Arc { tail: u64, head: u64, cost: u64 },
}

// A line, and the place past it.
#[derive(Clone, Copy)]
pub struct Line {
    pub kind: Kind,
    pub next: u64,
}

fn is(bytes: &[u8], at: u64, behind: u64, letter: u8) -> bool {
    reading::byte(bytes, words::sum(at, behind)) == letter
}

// It ends with the next line feed.
fn comment_at(bytes: &[u8], at: u64) -> Option<Line> {
    let end = (at..bytes.len() as u64).find(|place| reading::byte(bytes, *place) == b'\n')?;
    Some(Line {
        kind: Kind::Comment,
        next: words::sum(end, 1),
    })
}

fn problem_at(bytes: &[u8], at: u64) -> Option<Line> {
    let sp = is(bytes, at, 2, b's') && is(bytes, at, 3, b'p');
    let parted = is(bytes, at, 1, b' ') && is(bytes, at, 4, b' ');
    if !(sp && parted) {
        return None;
    }
    let nodes = reading::field(bytes, words::sum(at, 5), b' ')?;
    let arcs = reading::field(bytes, nodes.next, b'\n')?;
    Some(Line {
        kind: Kind::Problem {
            nodes: nodes.number,
            arcs: arcs.number,
        },
        next: arcs.next,
    })
}

fn arc_at(bytes: &[u8], at: u64) -> Option<Line> {
    if !is(bytes, at, 1, b' ') {
        return None;
    }
    let tail = reading::field(bytes, words::sum(at, 2), b' ')?;
    let head = reading::field(bytes, tail.next, b' ')?;
    let cost = reading::field(bytes, head.next, b'\n')?;
    Some(Line {
        kind: Kind::Arc {
            tail: tail.number,
            head: head.number,
            cost: cost.number,
        },
        next: cost.next,
    })
}

// The line at a place, told by its first letter; nothing if it is ill-formed.
pub fn line_at(bytes: &[u8], at: u64) -> Option<Line> {
    match reading::byte(bytes, at) {
        b'c' => comment_at(bytes, at),
        b'p' => problem_at(bytes, at),
        b'a' => arc_at(bytes, at),
        _ => None,
    }
}
