// The three kinds of line of a planning file (document 01, "Planning file"; document 02, paper 2).
#![tactic(auto)]

ghost use Rattle.std.specs.Prelude.{◌≡◌, ◌≤◌, length, drop};
ghost use Rattle.cursor.specs.Lines.{line_numbers};
ghost use Rattle.plan_lines.specs.Lines.{arc_line, hold_line, header_told, held_header_of, header_line};
ghost use Rattle.plan_lines.specs.Told.{lines_taken};

use cursor::{LineNumbers, numbers_at};

// An arc's line: its three numbers, and the bytes that it takes.
#[derive(Clone, Copy)]
pub struct ArcLine {
    pub tail: u32,
    pub head: u32,
    pub cost: u32,
    pub taken: usize,
}

// A hold's line: its one number, and the bytes that it takes.
#[derive(Clone, Copy)]
pub struct HoldLine {
    pub hold: u32,
    pub taken: usize,
}

// Line 1: its first five numbers, whether holds are told, and the bytes that it takes.
#[derive(Clone, Copy)]
pub struct HeaderLine {
    pub nodes: u32,
    pub arcs: u32,
    pub ceiling: u32,
    pub source: u32,
    pub segments: u32,
    pub held: bool,
    pub taken: usize,
}

pub fn arc_line_at(bytes: &[u8], at: usize) -> Option<ArcLine>
    requires { at ≤ length bytes.now }
    ensures { result ≡ arc_line (drop at bytes.now) }
{
    let LineNumbers {
        numbers: [tail, head, cost, ..],
        taken,
    } = numbers_at(bytes, at, 3)?;
    Some(ArcLine {
        tail,
        head,
        cost,
        taken,
    })
}

pub fn hold_line_at(bytes: &[u8], at: usize) -> Option<HoldLine>
    requires { at ≤ length bytes.now }
    ensures { result ≡ hold_line (drop at bytes.now) }
{
    let LineNumbers {
        numbers: [hold, ..],
        taken,
    } = numbers_at(bytes, at, 1)?;
    Some(HoldLine { hold, taken })
}

pub fn header_line_at(bytes: &[u8], at: usize) -> Option<HeaderLine>
    requires { at ≤ length bytes.now }
    ensures { result ≡ header_line (drop at bytes.now) }
{
    let Some(line) = numbers_at(bytes, at, 5) else {
        return held_header_at(bytes, at);
    };
    Some(header_told(line, false))
}

// Line 1 with a sixth field, which is 1.
#[tactic(auto, using(crate::proofs::Fields::other_header))]
fn held_header_at(bytes: &[u8], at: usize) -> Option<HeaderLine>
    requires { at ≤ length bytes.now }
    ensures { result ≡ held_header_of (line_numbers 6 (drop at bytes.now)) }
{
    let line = numbers_at(bytes, at, 6)?;
    if line.numbers[5] != 1 {
        return None;
    }
    Some(header_told(line, true))
}

fn header_told(line: LineNumbers, held: bool) -> HeaderLine
    ensures { result ≡ header_told line held }
{
    let LineNumbers {
        numbers: [nodes, arcs, ceiling, source, segments, ..],
        taken,
    } = line;
    HeaderLine {
        nodes,
        arcs,
        ceiling,
        source,
        segments,
        held,
        taken,
    }
}

// The bytes that so many lines of so many fields take; an ill-formed line ends them.
pub fn lines_taken(bytes: &[u8], at: usize, width: usize, count: u32) -> usize
    requires { (at ≤ length bytes.now) × ((1 ≤ width) × (width ≤ 7)) }
    ensures { result ≡ lines_taken width count (drop at bytes.now) }
{
    let mut line = at;
    for _ in 0..count {
        let Some(read) = numbers_at(bytes, line, width) else {
            return line - at;
        };
        line += read.taken;
    }
    line - at
}
