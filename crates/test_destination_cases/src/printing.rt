// What a row gives: the answer, the words lent, and sums of all words.
use crate::calls::Lent;
use model::{Fault, Run};
use std::io;
use test_rows::map::part;
use test_rows::printing::{print_number, print_sums, print_words};

// Number and place, then of a run that is accepted r, B, decreases, placements, looks and reads.
pub fn print_answer(rt: &impl Print, answer: Result<Run, Fault>) -> io::Result<()> {
    rt.write_all(b"answer")?;
    match answer {
        Ok(run) => {
            print_pair(rt, 0, 0)?;
            print_pair(rt, run.reached as u64, run.buckets as u64)?;
            print_pair(
                rt,
                run.counts.decreases as u64,
                run.counts.placements as u64,
            )?;
            print_pair(rt, run.counts.looks as u64, run.counts.reads as u64)?;
        }
        Err(fault) => print_pair(rt, u64::from(fault.kind.number()), fault.place as u64)?,
    }
    Ok(())
}

fn print_pair(rt: &impl Print, first: u64, second: u64) -> io::Result<()> {
    print_number(rt, first)?;
    print_number(rt, second)
}

// The words lent of a list, behind its name.
fn print_list(rt: &impl Print, name: &[u8], list: &[u32], words: u32) -> io::Result<()> {
    rt.write_all(name)?;
    print_words(rt, part(list, 0, words))
}

fn print_lists_sums(rt: &impl Print, lists: &[&[u32]]) -> io::Result<()> {
    rt.write_all(b"\nsums")?;
    for list in lists {
        print_sums(rt, list)?;
    }
    Ok(())
}

// Of a row sums the sums alone, and of the work list, of which most words are 0, in every row.
pub fn print_run(rt: &impl Print, word: u8, lent: Lent, lists: &[&[u32]; 4]) -> io::Result<()> {
    let [distances, parents, roster, _] = *lists;
    if word != b's' {
        print_list(rt, b"\ndistances", distances, lent.distances)?;
        print_list(rt, b"\nparents", parents, lent.parents)?;
        print_list(rt, b"\nroster", roster, lent.roster)?;
    }
    print_lists_sums(rt, lists)
}

// The lists of the reversed map.
pub fn print_reversed(
    rt: &impl Print,
    word: u8,
    lent: Lent,
    lists: &[&[u32]; 4],
) -> io::Result<()> {
    let [starts, heads, costs, old_arcs] = *lists;
    if word != b's' {
        print_list(rt, b"\nstarts", starts, lent.starts)?;
        print_list(rt, b"\nheads", heads, lent.heads)?;
        print_list(rt, b"\ncosts", costs, lent.costs)?;
        print_list(rt, b"\narcs", old_arcs, lent.old_arcs)?;
    }
    print_lists_sums(rt, lists)?;
    rt.write_all(b"\n")
}
