// How many cases of each refusal there were, and the differences found in them; number 0 is for those accepted at an edge.
use std::io;
use test_reference_map::nodes;
use test_reference_map::nodes::Table;

// The rows of the table that have the cases of each number and the differences of each.
const CASES: u64 = 0;

const DIFFERENCES: u64 = 1;

// What a case is refused for, 0 for nothing, and the differences found in it.
#[derive(Clone, Copy)]
pub struct Found {
    pub number: u64,
    pub differences: u64,
}

// A case is counted under its number; its differences.
pub fn count(tallies: &mut Table, found: Found) -> u64 {
    nodes::add(tallies, CASES, found.number, 1);
    nodes::add(tallies, DIFFERENCES, found.number, found.differences);
    found.differences
}

// What stands behind a name: how many cases it has, and the differences in them.
pub fn print_found(rt: &impl Print, cases: u64, differences: u64) -> io::Result<()> {
    rt.write_all(b",")?;
    rt.print(cases)?;
    rt.write_all(b",")?;
    rt.print(differences)?;
    rt.write_all(b"\n")
}

// A line for each number that runs, routes and planning files return: those of document 01, and 20 of document 02, paper 2.
pub fn print(rt: &impl Print, tallies: &Table) -> io::Result<()> {
    print_below(rt, tallies, 18)?;
    print_number(rt, tallies, 20)
}

fn print_number(rt: &impl Print, tallies: &Table, number: u64) -> io::Result<()> {
    rt.write_all(b"returned ")?;
    rt.print(number)?;
    let cases = nodes::get(tallies, CASES, number);
    print_found(rt, cases, nodes::get(tallies, DIFFERENCES, number))
}

// A line for each number below an end.
pub fn print_below(rt: &impl Print, tallies: &Table, end: u64) -> io::Result<()> {
    for number in 0..end {
        print_number(rt, tallies, number)?;
    }
    Ok(())
}
