// The interface for C, continued: the function that answers with a text (document 01, "Planning file").
ghost use Rattle.planning.specs.Planning.{plan_lists, PlanningPromised};

// What `plan` prints for the bytes of a planning file: it is written to the front of the output, and its length is given back.
#[unsafe(no_mangle)]
pub extern "C" fn roosternow_answer(
    bytes: &[u8],
    starts: &mut [u32; 513],
    heads: &mut [u32; 2048],
    costs: &mut [u32; 2048],
    holds: &mut [u32; 512],
    distances: &mut [u32; 512],
    parents: &mut [u32; 512],
    roster: &mut [u32; 512],
    work: &mut [u32; 2432],
    output: &mut [u8; 33280],
) -> usize
    ensures { PlanningPromised bytes.now
        (plan_lists starts.old heads.old costs.old holds.old distances.old parents.old roster.old work.old)
        (plan_lists starts.new heads.new costs.new holds.new distances.new parents.new roster.new work.new)
        output.old output.new result }
{
    planning::answer(
        bytes, starts, heads, costs, holds, distances, parents, roster, work, output,
    )
}
