// The lines behind the `p` line (document 02, paper 1).
ghost use Rattle.std.specs.Prelude.{◌≡◌, ◌≤◌, ltb, length, drop};
ghost use Rattle.model.specs.declared.Kind.TheVariants.{RoadOrder};
ghost use Rattle.check_numbers.specs.Numbers.{fault_if};
ghost use Rattle.checks.specs.Checks.{first_fault};
ghost use Rattle.dimacs_lines.specs.Lines.{road_lines};
ghost use Rattle.dimacs_checks.specs.Checking.{road_arc_checks, arcs_told, told_check, lines_check};

use dimacs_lines::{Told, line_at};
use model::{Fault, Kind};

pub fn lines_check(
    bytes: &[u8],
    from: usize,
    before: usize,
    n: u32,
    arcs: u32,
    ceiling: u32,
) -> Result<(), Fault>
    requires before_le_from { before ≤ from }
    requires from_in_bounds { from ≤ length bytes.now }
    ensures { result ≡ lines_check n arcs ceiling 0 before (road_lines (drop from bytes.now)) }
{
    let count = arcs as usize;
    let mut at = from;
    let mut line = before;
    let mut read = 0;
    while at < bytes.len() {
        line += 1;
        let Some(found) = line_at(bytes, at) else {
            return Err(Fault {
                kind: Kind::RoadForm,
                place: line,
            });
        };
        line_check(found.told, line, read, n, count, ceiling)?;
        at += found.taken;
        read += arcs_told(found.told);
    }
    end_check(line, read, count)
}

// Line `line`, where `read` arcs came before it.
fn line_check(
    told: Told,
    line: usize,
    read: usize,
    n: u32,
    arcs: usize,
    ceiling: u32,
) -> Result<(), Fault>
    ensures { result ≡ told_check n arcs ceiling read line told }
{
    match told {
        Told::Comment => Ok(()),
        Told::Problem { .. } => Err(Fault {
            kind: Kind::RoadOrder,
            place: line,
        }),
        Told::RoadArc { tail, head, cost } => {
            if read >= arcs {
                return Err(Fault {
                    kind: Kind::RoadOrder,
                    place: line,
                });
            }
            arc_check(read, n, ceiling, tail, head, cost)
        }
    }
}

// An `a` line with `read` before it.
fn arc_check(
    read: usize,
    n: u32,
    ceiling: u32,
    tail: u32,
    head: u32,
    cost: u32,
) -> Result<(), Fault>
    ensures { result ≡ first_fault (road_arc_checks n ceiling read tail head cost) }
{
    if (tail < 1) | (tail > n) {
        return Err(Fault {
            kind: Kind::Tail,
            place: read,
        });
    }
    if (head < 1) | (head > n) {
        return Err(Fault {
            kind: Kind::Head,
            place: read,
        });
    }
    if cost > ceiling {
        return Err(Fault {
            kind: Kind::Cost,
            place: read,
        });
    }
    Ok(())
}

fn arcs_told(told: Told) -> usize
    ensures { result ≡ arcs_told told }
{
    match told {
        Told::Comment | Told::Problem { .. } => 0,
        Told::RoadArc { .. } => 1,
    }
}

// At the end m arcs have been read.
fn end_check(line: usize, read: usize, arcs: usize) -> Result<(), Fault>
    ensures { result ≡ fault_if RoadOrder line (ltb read arcs) }
{
    if read < arcs {
        Err(Fault {
            kind: Kind::RoadOrder,
            place: line,
        })
    } else {
        Ok(())
    }
}
