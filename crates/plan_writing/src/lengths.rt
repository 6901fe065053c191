// How many bytes the lines of the arcs and of the holds take (document 02, paper 5).
ghost use Rattle.std.specs.Prelude.{◌≡◌, ◌≤◌, length};
ghost use Rattle.plan_text.specs.Rendering.{render_arcs, render_holds};
ghost use Rattle.plan_text.specs.Files.{arc_list};
ghost use Rattle.plan_writing.specs.Texts.{InOrder};

use line_writing::line_length;

// Node by node, so that an arc's tail is known.
pub fn arcs_length(n: u32, starts: &[u32], heads: &[u32], costs: &[u32]) -> usize
    requires { InOrder n starts.now heads.now costs.now }
    ensures { result ≡ length (render_arcs (arc_list n starts.now heads.now costs.now)) }
{
    let mut total = 0;
    for v in 0..n {
        let i = v as usize;
        for a in starts[i] as usize..starts[i + 1] as usize {
            total += line_length(&[v, heads[a], costs[a]]);
        }
    }
    total
}

pub fn holds_length(holds: &[u32]) -> usize
    requires { length holds.now ≤ 4096 }
    ensures { result ≡ length (render_holds holds.now) }
{
    let mut total = 0;
    for hold in holds {
        total += line_length(&[*hold]);
    }
    total
}
