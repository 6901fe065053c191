// The lines of a road file in the shortest path format of the 9th DIMACS Challenge (document 02, paper 1).
#![tactic(auto)]

ghost use Rattle.std.specs.Prelude.{◌≡◌, ◌+◌, ◌≤◌, ◌==◌, length, drop, position};
ghost use Rattle.fields.specs.Fields.{line_feed};
ghost use Rattle.dimacs_lines.specs.Lines.{comment_from, problem_line, road_arc_line, road_line};

// A line: what it tells, and the bytes that it takes.
#[derive(Clone, Copy, Debug, PartialEq, Eq)]
pub struct RoadLine {
    pub told: Told,
    pub taken: usize,
}

#[derive(Clone, Copy, Debug, PartialEq, Eq)]
pub enum Told {
    Comment,
    Problem { nodes: u32, arcs: u32 },
    RoadArc { tail: u32, head: u32, cost: u32 },
}

// None for an ill-formed one.
pub fn line_at(bytes: &[u8], at: usize) -> Option<RoadLine>
    requires { at ≤ length bytes.now }
    ensures { result ≡ road_line (drop at bytes.now) }
{
    let rest = &bytes[at..];
    if rest.starts_with(b"c") {
        return comment_at(bytes, at);
    }
    if rest.starts_with(b"p sp ") {
        return problem_at(bytes, at);
    }
    if rest.starts_with(b"a ") {
        return arc_at(bytes, at);
    }
    None
}

// A comment goes up to its line feed, whatever its bytes are.
fn comment_at(bytes: &[u8], at: usize) -> Option<RoadLine>
    requires { at ≤ length bytes.now }
    ensures { result ≡ comment_from 0 (drop at bytes.now) }
{
    let feed = first_feed(&bytes[at..])?;
    Some(RoadLine {
        told: Told::Comment,
        taken: feed + 1,
    })
}

// Where the first line feed stands.
fn first_feed(bytes: &[u8]) -> Option<usize>
    ensures { result ≡ position (λ byte. byte == line_feed) bytes.now }
{
    bytes.iter().position(|byte| *byte == b'\n')
}

// The numbers of a `p` line stand behind its five bytes `p sp `.
fn problem_at(bytes: &[u8], at: usize) -> Option<RoadLine>
    requires { at + 5 ≤ length bytes.now }
    ensures { result ≡ problem_line (drop at bytes.now) }
{
    let mut values = [0u32; 2];
    let taken = fields::reading::line_at(bytes, at + 5, b' ', &mut values)?;
    Some(RoadLine {
        told: Told::Problem {
            nodes: values[0],
            arcs: values[1],
        },
        taken: 5 + taken,
    })
}

// Those of an `a` line stand behind its two bytes `a `.
fn arc_at(bytes: &[u8], at: usize) -> Option<RoadLine>
    requires { at + 2 ≤ length bytes.now }
    ensures { result ≡ road_arc_line (drop at bytes.now) }
{
    let mut values = [0u32; 3];
    let taken = fields::reading::line_at(bytes, at + 2, b' ', &mut values)?;
    Some(RoadLine {
        told: Told::RoadArc {
            tail: values[0],
            head: values[1],
            cost: values[2],
        },
        taken: 2 + taken,
    })
}
