// The lines of the arcs and of the holds, written at a place (document 02, paper 5). Each function gives back the place behind them.
ghost use Rattle.std.specs.Prelude.{◌+◌, ◌≤◌, length};
ghost use Rattle.fields.specs.Writing.{Writes};
ghost use Rattle.plan_text.specs.Rendering.{render_arcs, render_holds};
ghost use Rattle.plan_text.specs.Files.{arc_list};
ghost use Rattle.plan_writing.specs.Texts.{InOrder};

use line_writing::put_line;

// Node by node, as they are counted.
pub fn put_arcs(
    buffer: &mut [u8],
    at: usize,
    n: u32,
    starts: &[u32],
    heads: &[u32],
    costs: &[u32],
) -> usize
    requires in_order { InOrder n starts.now heads.now costs.now }
    requires costs_in_bounds { at + length (render_arcs (arc_list n starts.now heads.now costs.now)) ≤ length buffer.old }
    ensures { Writes at (render_arcs (arc_list n starts.now heads.now costs.now))
        buffer.old buffer.new result }
{
    let mut next = at;
    for v in 0..n {
        let i = v as usize;
        for a in starts[i] as usize..starts[i + 1] as usize {
            next = put_line(buffer, next, &[v, heads[a], costs[a]]);
        }
    }
    next
}

pub fn put_holds(buffer: &mut [u8], at: usize, holds: &[u32]) -> usize
    requires { at + length (render_holds holds.now) ≤ length buffer.old }
    ensures { Writes at (render_holds holds.now) buffer.old buffer.new result }
{
    let mut next = at;
    for hold in holds {
        next = put_line(buffer, next, &[*hold]);
    }
    next
}
