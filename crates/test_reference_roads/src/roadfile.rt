// A road file read into the lists of a map, or what it is refused for (document 02, paper 1).
use crate::arcs::{Arc, Arcs, ArcsOf, ShortArc};
use crate::lines::{Kind, Line};
use crate::{arcs, lines};
use test_reference_map::map::Lists;
use test_reference_map::refusal::{Refusal, refuse};
use test_reference_map::words;

// The ceiling, and how many words are lent of each list.
#[derive(Clone, Copy)]
pub struct Lent {
    pub ceiling: u64,
    pub starts: u64,
    pub heads: u64,
    pub costs: u64,
}

// n and m.
#[derive(Clone, Copy, PartialEq)]
pub struct Size {
    pub nodes: u64,
    pub arcs: u64,
}

// How far a file is read: the lines and the place past them, what the `p` line says if it is among them, and the arcs.
#[derive(Clone, Copy)]
struct Passed {
    lines: u64,
    at: u64,
    told: Option<Size>,
    read: u64,
}

// 1, 4 and 2.
fn check_numbers(told: Size, ceiling: u64) -> Result<(), Refusal> {
    if told.nodes < 1 || told.nodes > 4096 {
        return refuse(1, 0);
    }
    if told.arcs > 65536 {
        return refuse(4, 0);
    }
    if ceiling > 1048575 {
        return refuse(2, 0);
    }
    Ok(())
}

// The `p` line: 19, those of its numbers, then 10.
fn check_problem(passed: Passed, lent: Lent, told: Size) -> Result<(), Refusal> {
    if passed.told.is_some() {
        return refuse(19, words::sum(passed.lines, 1));
    }
    check_numbers(told, lent.ceiling)?;
    if lent.starts <= told.nodes {
        return refuse(10, 0);
    }
    if lent.heads < told.arcs {
        return refuse(10, 1);
    }
    if lent.costs < told.arcs {
        return refuse(10, 2);
    }
    Ok(())
}

fn is_node(number: u64, n: u64) -> bool {
    number >= 1 && number <= n
}

// The line of an arc: 19, 12, 7 and 8. Before the `p` line m counts as 0.
fn check_arc(passed: Passed, lent: Lent, tail: u64, head: u64, cost: u64) -> Result<(), Refusal> {
    let told = passed.told.unwrap_or(Size { nodes: 0, arcs: 0 });
    if passed.read >= told.arcs {
        return refuse(19, words::sum(passed.lines, 1));
    }
    if !is_node(tail, told.nodes) {
        return refuse(12, passed.read);
    }
    if !is_node(head, told.nodes) {
        return refuse(7, passed.read);
    }
    if cost > lent.ceiling {
        return refuse(8, passed.read);
    }
    Ok(())
}

// No number of an arc that is taken is longer.
fn short(number: u64) -> u32 {
    (number % 4294967296) as u32
}

// A line more is passed, unless it is refused.
fn pass<A: Copy + From<ShortArc>>(
    passed: Passed,
    lent: Lent,
    line: Line,
    arcs: &mut ArcsOf<A>,
) -> Result<Passed, Refusal> {
    let more = Passed {
        lines: words::sum(passed.lines, 1),
        at: line.next,
        ..passed
    };
    match line.kind {
        Kind::Comment => Ok(more),
        Kind::Problem { nodes, arcs } => {
            let told = Size { nodes, arcs };
            check_problem(passed, lent, told)?;
            Ok(Passed {
                told: Some(told),
                ..more
            })
        }
        Kind::Arc { tail, head, cost } => {
            check_arc(passed, lent, tail, head, cost)?;
            let arc = ShortArc {
                tail: short(words::minus(tail, 1)),
                head: short(words::minus(head, 1)),
                cost: short(cost),
            };
            arcs::keep_of(arcs, passed.read, A::from(arc));
            Ok(Passed {
                read: words::sum(passed.read, 1),
                ..more
            })
        }
    }
}

// At the end of the file: 19 with the last line if the `p` line or an arc lacks.
fn finish<A: Copy + Into<Arc>>(
    passed: Passed,
    arcs: &ArcsOf<A>,
    lists: &mut Lists,
) -> Result<Size, Refusal> {
    match passed.told {
        Some(told) if passed.read >= told.arcs => {
            arcs::group_of(arcs, told.nodes, told.arcs, lists);
            Ok(told)
        }
        _ => refuse(19, words::most(passed.lines, 1)),
    }
}

// What a file's bytes give; the lists are those of its map if it is read.
pub fn read(bytes: &[u8], lent: Lent, arcs: &mut Arcs, lists: &mut Lists) -> Result<Size, Refusal> {
    read_of(bytes, lent, arcs, lists)
}

pub fn read_of<A: Copy + From<ShortArc> + Into<Arc>>(
    bytes: &[u8],
    lent: Lent,
    arcs: &mut ArcsOf<A>,
    lists: &mut Lists,
) -> Result<Size, Refusal> {
    let end = bytes.len() as u64;
    let mut passed = Passed {
        lines: 0,
        at: 0,
        told: None,
        read: 0,
    };
    // A file has no more lines than bytes.
    for _ in 0..end {
        if passed.at >= end {
            break;
        }
        let Some(line) = lines::line_at(bytes, passed.at) else {
            return refuse(18, words::sum(passed.lines, 1));
        };
        passed = pass(passed, lent, line, arcs)?;
    }
    finish(passed, arcs, lists)
}

#[cfg(test)]
mod tests {
    use super::*;
    use test_reference_map::map;

    // One arc, from node 1 to node 2 of three, at cost 5.
    #[test]
    fn long_arcs_are_read(rt: HostRuntime) {
        let lent = Lent {
            ceiling: 5,
            starts: 4,
            heads: 1,
            costs: 1,
        };
        let mut arcs = arcs::none();
        let mut lists = [0; 139296];
        let size = read(b"p sp 3 1\na 1 2 5\n", lent, &mut arcs, &mut lists);
        assert!(rt; size == Ok(Size { nodes: 3, arcs: 1 }));
        assert_eq!(rt; arcs[0].tail, 0);
        assert_eq!(rt; arcs[0].head, 1);
        assert_eq!(rt; arcs[0].cost, 5);
        assert_eq!(rt; map::arcs(&lists, 0), 0..1);
        assert_eq!(rt; map::arcs(&lists, 1), 1..1);
        assert_eq!(rt; map::head(&lists, 0), 1);
        assert_eq!(rt; map::cost(&lists, 0), 5);
    }
}
