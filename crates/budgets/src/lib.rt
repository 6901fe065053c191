// From a line n,m,C,K to the most heap operations of both heaps (demand 3).
#![tactic(auto)]

ghost use Rattle.std.specs.Prelude.{Ok, ◌≡◌, [], ◌∷◌, ◌++◌, ◌+◌, ◌-◌, ◌*◌, ◌≤◌, ltb, length};
ghost use Rattle.model.specs.declared.Kind.TheVariants.{PlanLine};
ghost use Rattle.check_numbers.specs.Numbers.{fault_if};
ghost use Rattle.checks.specs.Checks.{first_fault};
ghost use Rattle.fields.specs.Writing.{Writes};
ghost use Rattle.budgets.specs.Budget.{most_reached, Small, budget_checks, bounds_line, heap_bounds, size_text, budget_text};

use model::{Fault, Kind};
use theory::Levels;

fn most_reached(nodes: u32, arcs: u32) -> u32
    requires { arcs ≤ 65536 }
    ensures { result ≡ most_reached nodes arcs }
{
    if nodes < arcs + 1 { nodes } else { arcs + 1 }
}

fn most_placements(reached: u32, buckets: u32, arcs: u32) -> u32
    requires { Small reached buckets arcs }
    ensures { result ≡ reached * (buckets - 1) + arcs + 1 }
{
    reached * (buckets - 1) + arcs + 1
}

fn most_looks(reached: u32, looks: u32) -> u32
    requires { (reached ≤ 4096) × (looks ≤ 128) }
    ensures { result ≡ reached * looks }
{
    reached * looks
}

fn most_reads(reached: u32, buckets: u32, arcs: u32, placements: u32) -> u32
    requires { Small reached buckets arcs × (placements ≡ reached * (buckets - 1) + arcs + 1) }
    ensures { result ≡ reached * (buckets - 1) + 2 * placements }
{
    reached * (buckets - 1) + 2 * placements
}

// Placements, looks and reads together: the one number of a heap.
fn most_operations(reached: u32, buckets: u32, looks: u32, arcs: u32) -> u32
    requires { Small reached buckets arcs × (looks ≤ 128) }
    ensures { result ≡ reached * (4 * buckets + looks - 4) + 3 * arcs + 3 }
{
    reached * (4 * buckets + looks - 4) + 3 * arcs + 3
}

// The line of a heap from its fields.
fn write_bounds(
    output: &mut [u8],
    at: usize,
    word: &[u8],
    buckets: u32,
    decreases: u32,
    placements: u32,
    looks: u32,
    reads: u32,
    operations: u32,
) -> usize
    requires { at + length word.now + 127 ≤ length output.old }
    ensures { Writes at (bounds_line word.now buckets decreases placements looks reads operations)
        output.old output.new result }
{
    let second = report::put_word(output, at, word);
    let third = fields::writing::put_field(output, second, buckets as u64, b',');
    let fourth = fields::writing::put_field(output, third, decreases as u64, b',');
    let fifth = fields::writing::put_field(output, fourth, placements as u64, b',');
    let sixth = fields::writing::put_field(output, fifth, looks as u64, b',');
    report::put_two(output, sixth, reads as u64, operations as u64)
}

// The line of a heap in which a removal makes at most so many looks.
fn write_heap(
    output: &mut [u8],
    at: usize,
    word: &[u8],
    nodes: u32,
    arcs: u32,
    buckets: u32,
    looks: u32,
) -> usize
    requires small { Small (most_reached nodes arcs) buckets arcs × (looks ≤ 128) }
    requires word_in_bounds { at + length word.now + 127 ≤ length output.old }
    ensures { Writes at (heap_bounds word.now nodes arcs buckets looks) output.old output.new result }
{
    let reached = most_reached(nodes, arcs);
    let placements = most_placements(reached, buckets, arcs);
    let looked = most_looks(reached, looks);
    let reads = most_reads(reached, buckets, arcs, placements);
    let operations = most_operations(reached, buckets, looks, arcs);
    write_bounds(
        output, at, word, buckets, arcs, placements, looked, reads, operations,
    )
}

// The bounds of both heaps for a size that has passed its checks.
fn write_size(output: &mut [u8], nodes: u32, arcs: u32, ceiling: u32, segments: u32) -> usize
    requires segments_value { first_fault (budget_checks nodes arcs ceiling segments) ≡ Ok tt }
    requires in_bounds { 320 ≤ length output.old }
    ensures { Writes 0 (size_text nodes arcs ceiling segments) output.old output.new result }
{
    let one = sizes::buckets(Levels::One, ceiling);
    let two = sizes::buckets(Levels::Two { segments }, ceiling);
    let next = write_heap(output, 0, b"one", nodes, arcs, one, one);
    write_heap(output, next, b"two", nodes, arcs, two, two + segments)
}

// The checks of a size, then left-over bytes.
#[tactic(auto, unfolding(checks::specs::Checks::first_fault, crate::specs::Budget::budget_checks))]
fn size_check(nodes: u32, arcs: u32, ceiling: u32, segments: u32, left: usize) -> Result<(), Fault>
    ensures { result ≡ first_fault (budget_checks nodes arcs ceiling segments ++ (fault_if PlanLine 2 (ltb 0 left) ∷ [])) }
{
    check_numbers::nodes_check(nodes)?;
    check_numbers::head_count_check(arcs as usize)?;
    check_numbers::ceiling_check(ceiling)?;
    check_numbers::segments_check(segments)?;
    left_check(left)
}

fn left_check(left: usize) -> Result<(), Fault>
    ensures { result ≡ fault_if PlanLine 2 (ltb 0 left) }
{
    if 0 < left {
        Err(Fault {
            kind: Kind::PlanLine,
            place: 2,
        })
    } else {
        Ok(())
    }
}

// The output as a slice.
fn answer_in(bytes: &[u8], output: &mut [u8]) -> usize
    requires { 320 ≤ length output.old }
    ensures { Writes 0 (budget_text bytes.now) output.old output.new result }
{
    let mut size = [0u32; 4];
    let Some(taken) = fields::reading::line_at(bytes, 0, b',', &mut size) else {
        return report::write_refusal(
            output,
            Fault {
                kind: Kind::PlanLine,
                place: 1,
            },
        );
    };
    if let Err(fault) = size_check(size[0], size[1], size[2], size[3], bytes.len() - taken) {
        return report::write_refusal(output, fault);
    }
    write_size(output, size[0], size[1], size[2], size[3])
}

// What `budget` prints for its input: it is written to the front of the output, and its length is given back.
pub fn answer(bytes: &[u8], output: &mut [u8; 320]) -> usize
    ensures { Writes 0 (budget_text bytes.now) output.old output.new result }
{
    answer_in(bytes, output)
}
