// Number 8 of a planning file with holds: an arc's cost together with its tail's hold above the ceiling (document 02, paper 2). Nothing is
// written yet, so both are read from the bytes once more. Tails never fall: the place among the holds only moves on.
#![tactic(auto)]

ghost use Rattle.std.specs.Prelude.{◌≡◌, drop};
ghost use Rattle.plan_lines.specs.Told.{lines_arcs, lines_holds};
ghost use Rattle.plan_sums.specs.Sums.{arc_sums_check, SumLines};

use model::{Fault, Kind};
use plan_lines::{ArcLine, HoldLine, arc_line_at, hold_line_at, lines_taken};

// The lines of the arcs begin at `at`, those of n holds at `behind`; n is asked for by the contract alone. No sum is formed: a cost is held
// against what a hold leaves.
pub fn arc_sums_check(
    bytes: &[u8],
    at: usize,
    behind: usize,
    n: u32,
    arcs: u32,
    ceiling: u32,
) -> Result<(), Fault>
    requires { SumLines n arcs ceiling bytes.now at behind }
    ensures { result ≡ arc_sums_check ceiling (lines_arcs arcs (drop at bytes.now)) (lines_holds n (drop behind bytes.now)) }
{
    let mut line = at;
    let mut hold_line = behind;
    let mut node = 0;
    for i in 0..arcs as usize {
        let Some(
            ArcLine {
                tail,
                cost,
                taken,
                ..
            },
        ) = arc_line_at(bytes, line)
        else {
            return Ok(());
        };
        hold_line += lines_taken(bytes, hold_line, 1, tail - node);
        let Some(HoldLine { hold, .. }) = hold_line_at(bytes, hold_line) else {
            return Ok(());
        };
        if cost > ceiling - hold {
            return Err(Fault {
                kind: Kind::Cost,
                place: i,
            });
        }
        node = tail;
        line += taken;
    }
    Ok(())
}
