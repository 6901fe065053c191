// The lines of the holds, which stand behind those of the arcs (document 02, paper 2).
ghost use Rattle.std.specs.Prelude.{◌≡◌, ◌+◌, ◌≤◌, length, drop};
ghost use Rattle.plan_lines.specs.Told.{lines_taken};
ghost use Rattle.plan_checks.specs.Checking.{hold_lines_check, lines_end_of};

use model::{Fault, Kind};
use plan_lines::{HoldLine, hold_line_at};

pub fn hold_lines_check(
    bytes: &[u8],
    at: usize,
    n: u32,
    arcs: u32,
    ceiling: u32,
) -> Result<usize, Fault>
    requires { at ≤ length bytes.now }
    ensures { result ≡ lines_end_of (hold_lines_check ceiling arcs n 0 (drop at bytes.now)) (at + lines_taken 1 n (drop at bytes.now)) }
{
    let lines_before = arcs as usize + 2;
    let mut line = at;
    for v in 0..n as usize {
        let Some(HoldLine { hold, taken }) = hold_line_at(bytes, line) else {
            return Err(Fault {
                kind: Kind::PlanLine,
                place: lines_before + v,
            });
        };
        if hold > ceiling {
            return Err(Fault {
                kind: Kind::Hold,
                place: v,
            });
        }
        line += taken;
    }
    Ok(line)
}
