// The second pass over a planning file: the lists are filled from lines that have passed their checks (document 01, "Planning file";
// document 02, paper 2).
ghost use Rattle.std.specs.Prelude.{◌≡◌, ◌+◌, ◌≤◌, true, length, drop, Ok};
ghost use Rattle.model.specs.Answers.{words_after};
ghost use Rattle.grouping.specs.Filled.{Filled};
ghost use Rattle.plan_lines.specs.Told.{lines_taken, lines_arcs, lines_holds, node_holds};
ghost use Rattle.reader.specs.Filling.{Fillable, HoldsFillable, between};

use plan_lines::{ArcLine, HoldLine, arc_line_at, hold_line_at};

// The tails never fall: the starts up to an arc's tail are the arcs before it. The place behind the lines is given back.
pub fn fill(
    bytes: &[u8],
    at: usize,
    n: u32,
    arcs: u32,
    starts: &mut [u32],
    heads: &mut [u32],
    costs: &mut [u32],
) -> usize
    requires { Fillable n arcs bytes.now at starts.old heads.old costs.old }
    ensures behind { result ≡ at + lines_taken 3 arcs (drop at bytes.now) }
    ensures lists { Filled n (lines_arcs arcs (drop at bytes.now)) starts.old heads.old costs.old
        starts.new heads.new costs.new }
{
    let mut line = at;
    let mut next = 0;
    for i in 0..arcs as usize {
        let Some(
            ArcLine {
                tail,
                head,
                cost,
                taken,
            },
        ) = arc_line_at(bytes, line)
        else {
            return line;
        };
        let end = tail as usize + 1;
        fill_between(starts, next, end, i as u32);
        heads[i] = head;
        costs[i] = cost;
        next = end;
        line += taken;
    }
    fill_between(starts, next, n as usize + 1, arcs);
    line
}

// A file that tells no holds has holds of 0.
pub fn fill_holds(bytes: &[u8], at: usize, n: u32, held: bool, holds: &mut [u32])
    requires { HoldsFillable n held bytes.now at holds.old }
    ensures { holds.new ≡ words_after (Ok tt) (node_holds held n (drop at bytes.now)) holds.old }
{
    if held {
        fill_told(bytes, at, n, holds);
    } else {
        fill_between(holds, 0, n as usize, 0);
    }
}

fn fill_told(bytes: &[u8], at: usize, n: u32, holds: &mut [u32])
    requires { HoldsFillable n true bytes.now at holds.old }
    ensures { holds.new ≡ words_after (Ok tt) (lines_holds n (drop at bytes.now)) holds.old }
{
    let mut line = at;
    for v in 0..n as usize {
        let Some(HoldLine { hold, taken }) = hold_line_at(bytes, line) else {
            return;
        };
        holds[v] = hold;
        line += taken;
    }
}

fn fill_between(words: &mut [u32], from: usize, to: usize, word: u32)
    requires { (from ≤ to) × (to ≤ length words.old) }
    ensures { words.new ≡ between words.old from to word }
{
    for i in from..to {
        words[i] = word;
    }
}
