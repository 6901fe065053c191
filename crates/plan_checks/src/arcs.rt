// The lines of the arcs (document 01, "What a call returns").
ghost use Rattle.std.specs.Prelude.{◌≡◌, ◌+◌, ◌≤◌, length, drop};
ghost use Rattle.checks.specs.Checks.{first_fault};
ghost use Rattle.plan_lines.specs.Told.{lines_taken};
ghost use Rattle.plan_checks.specs.Checking.{arc_checks, arcs_check, lines_end_of};

use model::{Fault, Kind};
use plan_lines::{ArcLine, arc_line_at};

pub fn arcs_check(bytes: &[u8], at: usize, n: u32, arcs: u32, ceiling: u32) -> Result<usize, Fault>
    requires { at ≤ length bytes.now }
    ensures { result ≡ lines_end_of (arcs_check n ceiling arcs 0 0 (drop at bytes.now)) (at + lines_taken 3 arcs (drop at bytes.now)) }
{
    let mut line = at;
    let mut before = 0;
    for i in 0..arcs as usize {
        let Some(
            ArcLine {
                tail,
                head,
                cost,
                taken,
            },
        ) = arc_line_at(bytes, line)
        else {
            return Err(Fault {
                kind: Kind::PlanLine,
                place: i + 2,
            });
        };
        arc_check(n, ceiling, i, before, tail, head, cost)?;
        line += taken;
        before = tail;
    }
    Ok(line)
}

// Arc i, where `before` is the tail of the one before it.
fn arc_check(
    n: u32,
    ceiling: u32,
    i: usize,
    before: u32,
    tail: u32,
    head: u32,
    cost: u32,
) -> Result<(), Fault>
    ensures { result ≡ first_fault (arc_checks n ceiling i before tail head cost) }
{
    if (tail < before) | (tail >= n) {
        return Err(Fault {
            kind: Kind::Tail,
            place: i,
        });
    }
    if head >= n {
        return Err(Fault {
            kind: Kind::Head,
            place: i,
        });
    }
    if cost > ceiling {
        return Err(Fault {
            kind: Kind::Cost,
            place: i,
        });
    }
    Ok(())
}
