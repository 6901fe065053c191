// From the bytes of a road file to those of the planning file that `convert` prints (document 02, papers 1 and 5).
#![tactic(auto)]

ghost use Rattle.std.specs.Prelude.{length};
ghost use Rattle.checks.specs.Checks.{first_fault};
ghost use Rattle.fields.specs.Writing.{Writes};
ghost use Rattle.plan_text.specs.Files.{plan_file};
ghost use Rattle.writer.specs.Promise.{write_checks};
ghost use Rattle.conversion.specs.Conversion.{text_or_refusal, ConversionPromised, ConversionLends, front_inputs, FrontFits};

use checks::Given;
use dimacs::RoadSize;
use model::{Fault, Kind, Node};

// A road file tells no holds: each is 0.
fn write_front(
    nodes: u32,
    arcs: u32,
    ceiling: u32,
    source: Node,
    segments: u32,
    starts: &[u32],
    heads: &[u32],
    costs: &[u32],
    output: &mut [u8],
) -> usize
    requires { FrontFits nodes arcs starts.now heads.now costs.now output.old }
    ensures { Writes 0
        (text_or_refusal
        (first_fault (write_checks (front_inputs nodes arcs ceiling source.0 starts.now heads.now costs.now) segments (length output.old)))
        (plan_file (front_inputs nodes arcs ceiling source.0 starts.now heads.now costs.now) segments))
        output.old output.new result }
{
    let n = nodes as usize;
    let m = arcs as usize;
    let holds = [0u32; 512];
    let given = Given {
        nodes,
        ceiling,
        source,
        starts: &starts[..n + 1],
        heads: &heads[..m],
        costs: &costs[..m],
        holds: &holds[..n],
    };
    match writer::write(given, segments, output) {
        Ok(length) => length,
        Err(fault) => report::write_refusal(output, fault),
    }
}

// The lists as slices.
fn answer_in(
    bytes: &[u8],
    ceiling: u32,
    source: Node,
    segments: u32,
    starts: &mut [u32],
    heads: &mut [u32],
    costs: &mut [u32],
    output: &mut [u8],
) -> usize
    requires { ConversionLends starts.old heads.old costs.old output.old }
    ensures { ConversionPromised bytes.now ceiling source.0 segments starts.old heads.old costs.old
        starts.new heads.new costs.new output.old output.new result }
{
    if bytes.len() > 65536 {
        return report::write_refusal(
            output,
            Fault {
                kind: Kind::InputSize,
                place: 0,
            },
        );
    }
    match dimacs::read(bytes, ceiling, starts, heads, costs) {
        Err(fault) => report::write_refusal(output, fault),
        Ok(RoadSize { nodes, arcs }) => write_front(
            nodes, arcs, ceiling, source, segments, starts, heads, costs, output,
        ),
    }
}

pub fn answer(
    bytes: &[u8],
    ceiling: u32,
    source: Node,
    segments: u32,
    starts: &mut [u32; 513],
    heads: &mut [u32; 2048],
    costs: &mut [u32; 2048],
    output: &mut [u8; 40992],
) -> usize
    ensures { ConversionPromised bytes.now ceiling source.0 segments starts.old heads.old costs.old
        starts.new heads.new costs.new output.old output.new result }
{
    answer_in(
        bytes, ceiling, source, segments, starts, heads, costs, output,
    )
}
