// The text of a planning file and its length, from the numbers of line 1, the lists of a map and the holds that have lines (document 02,
// paper 5).
#![tactic(auto)]

mod lengths;
mod lines;

ghost use Rattle.std.specs.Prelude.{◌≡◌, ◌≤◌, length};
ghost use Rattle.fields.specs.Writing.{Writes};
ghost use Rattle.plan_writing.specs.Texts.{TextLines, text_of};

use lengths::{arcs_length, holds_length};
use line_writing::{line_length, put_line};
use lines::{put_arcs, put_holds};

pub fn text_length(
    first: &[u32],
    n: u32,
    starts: &[u32],
    heads: &[u32],
    costs: &[u32],
    told: &[u32],
) -> usize
    requires { TextLines first.now n starts.now heads.now costs.now told.now }
    ensures { result ≡ length (text_of first.now n starts.now heads.now costs.now told.now) }
{
    line_length(first) + arcs_length(n, starts, heads, costs) + holds_length(told)
}

pub fn put_text(
    buffer: &mut [u8],
    first: &[u32],
    n: u32,
    starts: &[u32],
    heads: &[u32],
    costs: &[u32],
    told: &[u32],
) -> usize
    requires text_lines { TextLines first.now n starts.now heads.now costs.now told.now }
    requires told_in_bounds { length (text_of first.now n starts.now heads.now costs.now told.now) ≤ length buffer.old }
    ensures { Writes 0 (text_of first.now n starts.now heads.now costs.now told.now)
        buffer.old buffer.new result }
{
    let arcs = put_line(buffer, 0, first);
    let holds = put_arcs(buffer, arcs, n, starts, heads, costs);
    put_holds(buffer, holds, told)
}
