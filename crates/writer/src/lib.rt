// The writer of planning files (document 02, paper 5).
#![tactic(auto)]

ghost use Rattle.std.specs.Prelude.{◌≡◌};
ghost use Rattle.checks.specs.Given.{inputs_of};
ghost use Rattle.plan_text.specs.Rendering.{all_zero};
ghost use Rattle.plan_text.specs.Files.{plan_file};
ghost use Rattle.plan_writing.specs.Texts.{TextLines, text_of};
ghost use Rattle.writer.specs.Promise.{Writable, TextAnswered, WritePromised};

use checks::Given;
use model::Fault;

fn all_zero(holds: &[u32]) -> bool
    ensures { result ≡ all_zero holds.now }
{
    for hold in holds {
        if *hold != 0 {
            return false;
        }
    }
    true
}

// The length is known before the first byte is written.
fn write_text(
    first: &[u32],
    n: u32,
    starts: &[u32],
    heads: &[u32],
    costs: &[u32],
    told: &[u32],
    bytes: &mut [u8],
) -> Result<usize, Fault>
    requires { TextLines first.now n starts.now heads.now costs.now told.now }
    ensures { TextAnswered (text_of first.now n starts.now heads.now costs.now told.now)
        bytes.old bytes.new result }
{
    let length = plan_writing::text_length(first, n, starts, heads, costs, told);
    check_numbers::lent_check(0, bytes.len(), length)?;
    plan_writing::put_text(bytes, first, n, starts, heads, costs, told);
    Ok(length)
}

// Six fields and the lines of the holds, unless all holds are 0.
fn write_map<'a>(given: Given<'a>, segments: u32, bytes: &mut [u8]) -> Result<usize, Fault>
    requires { Writable (inputs_of given) segments }
    ensures { TextAnswered (plan_file (inputs_of given.entry) segments)
        bytes.old bytes.new result }
{
    let arcs = given.heads.len() as u32;
    let source = given.source.0;
    let first = [given.nodes, arcs, given.ceiling, source, segments, 1];
    if all_zero(given.holds) {
        return write_text(
            &first[..5],
            given.nodes,
            given.starts,
            given.heads,
            given.costs,
            &given.holds[..0],
            bytes,
        );
    }
    write_text(
        &first,
        given.nodes,
        given.starts,
        given.heads,
        given.costs,
        given.holds,
        bytes,
    )
}

pub fn write<'a>(given: Given<'a>, segments: u32, bytes: &mut [u8]) -> Result<usize, Fault>
    ensures { WritePromised (inputs_of given.entry) segments
        bytes.old bytes.new result }
{
    checks::map_check(given)?;
    check_numbers::segments_check(segments)?;
    write_map(given, segments, bytes)
}
