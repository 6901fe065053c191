// The rows that make a run to a destination. Lists are lent with words of no meaning in them, and all their words go into the sums that are
// printed, so that every word written or left shows.
use crate::printing::{print_answer, print_reversed, print_run};
use checks::Given;
use model::Node;
use std::io;
use test_rows::lists::front;
use test_rows::map::{COSTS, HEADS, HOLDS, part};
use test_rows::rows::Row;
use theory::Levels;

// How many words are lent of each list.
#[derive(Clone, Copy)]
pub struct Lent {
    pub distances: u32,
    pub parents: u32,
    pub roster: u32,
    pub work: u32,
    pub starts: u32,
    pub heads: u32,
    pub costs: u32,
    pub old_arcs: u32,
}

// Row: lend DISTANCES,PARENTS,ROSTER,WORK STARTS,HEADS,COSTS,ARCS
impl From<Row> for Lent {
    fn from(row: Row) -> Self {
        Lent {
            distances: row.n1,
            parents: row.n2,
            roster: row.n3,
            work: row.n4,
            starts: row.n5,
            heads: row.n6,
            costs: row.n7,
            old_arcs: row.n8,
        }
    }
}

fn given_of(row: Row, map: &[u32]) -> Given<'_> {
    Given {
        nodes: row.n1,
        ceiling: row.n2,
        source: Node(row.n3),
        starts: part(map, 0, row.n4),
        heads: part(map, HEADS, row.n5),
        costs: part(map, COSTS, row.n6),
        holds: part(map, HOLDS, row.n7),
    }
}

// Row: one N,C,DESTINATION STARTS,HEADS,COSTS,HOLDS
// Row: two N,C,DESTINATION STARTS,HEADS,COSTS,HOLDS K
fn run_to(rt: &impl Print, row: Row, levels: Levels, lent: Lent, map: &[u32]) -> io::Result<()> {
    let mut distances = [1000001; 4100];
    let mut parents = [2000003; 4100];
    let mut roster = [3000017; 4100];
    let mut work = [4000037; 16772];
    let mut starts = [3100001; 4100];
    let mut heads = [3200003; 65540];
    let mut costs = [3300001; 65540];
    let mut old_arcs = [3400043; 65540];
    let answer = destination::run_to(
        levels,
        given_of(row, map),
        front(&mut distances, lent.distances),
        front(&mut parents, lent.parents),
        front(&mut roster, lent.roster),
        front(&mut work, lent.work),
        front(&mut starts, lent.starts),
        front(&mut heads, lent.heads),
        front(&mut costs, lent.costs),
        front(&mut old_arcs, lent.old_arcs),
    );
    print_answer(rt, answer)?;
    print_run(rt, row.word, lent, &[&distances, &parents, &roster, &work])?;
    print_reversed(rt, row.word, lent, &[&starts, &heads, &costs, &old_arcs])
}

// The rows that make a run; rows both and sums make two.
pub fn run(rt: &impl Print, row: Row, lent: Lent, map: &[u32]) -> io::Result<()> {
    let two = Levels::Two { segments: row.n8 };
    match row.word {
        b'o' => run_to(rt, row, Levels::One, lent, map),
        b't' => run_to(rt, row, two, lent, map),
        _ => {
            run_to(rt, row, Levels::One, lent, map)?;
            run_to(rt, row, two, lent, map)
        }
    }
}
