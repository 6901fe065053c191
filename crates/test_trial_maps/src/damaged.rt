// Parents damaged (document 01, "Routes").
use crate::beside::ByNode;
use test_generated::{lists, random};
use test_reference_map::case::Case;
use test_reference_map::nodes;
use test_reference_map::nodes::Table;

// None, a number past the arcs, or any arc.
fn any_parent(case: Case, word: u64) -> u32 {
    match random::below(word, 8) {
        0 => 4294967295,
        1 => 4294967294,
        2 => case.heads,
        _ => random::below(random::next(word), case.heads),
    }
}

// Up to four parents of the table are replaced.
pub fn damage(case: Case, seed: u64, table: &mut Table) {
    let count = random::below(seed, 4) % 4 + 1;
    let mut word = seed;
    for _ in 0..count {
        word = random::next(random::next(random::next(word)));
        let v = u64::from(random::below(word, case.nodes));
        let parent = u64::from(any_parent(case, random::next(word)));
        nodes::set(table, nodes::PARENT, v, parent);
    }
}

// The parents of the table as a list.
pub fn parents_of(table: &Table) -> ByNode {
    let mut parents = [lists::PARENTS; 4112];
    for v in 0..4096 {
        let parent = nodes::get(table, nodes::PARENT, v as u64);
        parents[v] = (parent % 4294967296) as u32;
    }
    parents
}
