// The text for planning files beside the reference's, byte for byte, and the lists lent, word for word (document 01, "Planning file", and
// for the holds document 02, paper 2).
use crate::expected;
use crate::expected::Taken;
use test_generated::lists;
use test_generated::tallies::Found;
use test_reference_files::printing::Text;
use test_reference_map::map::Lists;
use test_reference_map::nodes::Table;
use test_reference_map::refusal::Refusal;
use test_reference_map::{map, nodes, words};

type ByArc = [u32; 2048];

type ByNode = [u32; 512];

// The length of a text, the bytes it was written to, and the lists that `plan` lends.
#[derive(Drop)]
struct Answered {
    length: usize,
    output: [u8; 33280],
    starts: [u32; 513],
    heads: ByArc,
    costs: ByArc,
    holds: ByNode,
    distances: ByNode,
    parents: ByNode,
    roster: ByNode,
    work: [u32; 2432],
}

fn answer(bytes: &[u8]) -> Answered {
    let mut answered = Answered {
        length: 0,
        output: [88; 33280],
        starts: [lists::STARTS; 513],
        heads: [lists::HEADS; 2048],
        costs: [lists::COSTS; 2048],
        holds: [lists::HOLDS; 512],
        distances: [lists::DISTANCES; 512],
        parents: [lists::PARENTS; 512],
        roster: [lists::ROSTER; 512],
        work: [lists::WORK; 2432],
    };
    let length = planning::answer(
        bytes,
        &mut answered.starts,
        &mut answered.heads,
        &mut answered.costs,
        &mut answered.holds,
        &mut answered.distances,
        &mut answered.parents,
        &mut answered.roster,
        &mut answered.work,
        &mut answered.output,
    );
    answered.length = length;
    answered
}

// The bytes that differ, the untouched ones behind both texts included.
fn differing(one: &[u8], two: &[u8]) -> u64 {
    one.iter().zip(two).filter(|(a, b)| **a != **b).count() as u64
}

// How many words are filled of a list with a word for each node and some more.
fn filled(nodes: u64, more: u64) -> u32 {
    (words::sum(nodes, more) % 4294967296) as u32
}

// How many words of the map's lists are not as the file is to leave them, where so many are filled.
fn differing_map(starts: u32, n: u32, m: u32, answered: &Answered, lists: &Lists) -> u64 {
    let filled = lists::part(lists, map::STARTS, starts);
    let in_starts = lists::not_words(&answered.starts, lists::STARTS, filled);
    let filled = lists::part(lists, map::HEADS, m);
    let in_heads = lists::not_words(&answered.heads, lists::HEADS, filled);
    let filled = lists::part(lists, map::COSTS, m);
    let in_costs = lists::not_words(&answered.costs, lists::COSTS, filled);
    let filled = lists::part(lists, map::HOLDS, n);
    let in_holds = lists::not_words(&answered.holds, lists::HOLDS, filled);
    words::sum(
        words::sum(in_starts, in_heads),
        words::sum(in_costs, in_holds),
    )
}

// The same of the runs' lists.
fn differing_run(n: u64, reached: u64, cleared: u64, answered: &Answered, table: &Table) -> u64 {
    let distances = lists::not_row(
        &answered.distances,
        lists::DISTANCES,
        table,
        nodes::DISTANCE,
        n,
    );
    let parents = lists::not_row(&answered.parents, lists::PARENTS, table, nodes::PARENT, n);
    let roster = lists::not_row(
        &answered.roster,
        lists::ROSTER,
        table,
        nodes::ORDER,
        reached,
    );
    let work = lists::not_row(&answered.work, lists::WORK, table, lists::CLEARED, cleared);
    words::sum(words::sum(distances, parents), words::sum(roster, work))
}

// How many words of the lists are not as they are expected: of a file that is taken n + 1, m, m, n, n, n, r and 4n + 384 words are filled, of
// a refused one none.
fn differing_words(
    told: Result<Taken, Refusal>,
    answered: &Answered,
    lists: &Lists,
    table: &Table,
) -> u64 {
    let Ok(taken) = told else {
        let in_map = differing_map(0, 0, 0, answered, lists);
        return words::sum(in_map, differing_run(0, 0, 0, answered, table));
    };
    let n = taken.nodes;
    let cleared = words::sum(words::product(4, n), 384);
    let in_map = differing_map(
        filled(n, 1),
        filled(n, 0),
        filled(taken.arcs, 0),
        answered,
        lists,
    );
    let in_run = differing_run(n, taken.reached, cleared, answered, table);
    words::sum(in_map, in_run)
}

// Both texts of a file: the bytes and the words of the lists that differ.
pub fn compare(file: Text) -> Found {
    let mut lists = [0u32; 139296];
    let mut table = [0u64; 49152];
    let mut text = Text::full_of(88);
    let input = file.written();
    let told = expected::text(input, &mut lists, &mut table, &mut text);
    let answered = answer(input);
    let in_length = lists::differ(answered.length as u64, text.length);
    let in_text = differing(&answered.output, &text.bytes);
    let in_words = differing_words(told, &answered, &lists, &table);
    Found {
        number: told.err().map_or(0, |found| found.number),
        differences: words::sum(words::sum(in_length, in_text), in_words),
    }
}
