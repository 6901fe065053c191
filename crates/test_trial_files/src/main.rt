// The text for planning files beside a reference that shares nothing with the planner (document 01, "Edges", and document 02, papers 2 and
// 3): files as they are to be, files at the edge of every refusal, and damaged files, of five fields, then with holds. Each family gives a
// line: its name, its files, and the differences found. Behind the families of five fields and behind those with holds each number that a
// text tells has a line: the files for which it is the one to tell, and the differences in them.
#![tactic(auto)]

use families::Family;
use std::io;
use test_generated::tallies;
use test_reference_map::nodes::Table;
use test_reference_map::words;

mod expected;
mod families;
mod files;
mod making;
mod rendering;

fn print_family(rt: &impl Print, family: Family, found: &mut Table) -> io::Result<()> {
    let mut differences = 0;
    for number in 0..family.count() {
        let one = files::compare(family.file_of(number));
        differences = words::sum(differences, tallies::count(found, one));
    }
    rt.write_all(family.name())?;
    tallies::print_found(rt, u64::from(family.count()), differences)
}

fn main(rt: HostRuntime) -> io::Result<()> {
    let mut found = [0u64; 49152];
    print_family(&rt, Family::Whole, &mut found)?;
    print_family(&rt, Family::Damaged, &mut found)?;
    tallies::print(&rt, &found)?;
    let mut found = [0u64; 49152];
    print_family(&rt, Family::WithHolds, &mut found)?;
    print_family(&rt, Family::SumsAtEdge, &mut found)?;
    print_family(&rt, Family::DamagedWithHolds, &mut found)?;
    tallies::print(&rt, &found)
}
