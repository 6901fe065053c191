// The reader of road files beside a reference that shares nothing with it (document 02, paper 1): files as they are to be, and files damaged
// or with numbers at the edge of every refusal. Each family gives a line: its name, its files, and the differences found. Behind it each number
// has a line: the files for which it is the one to return, and the differences in them. tests/cases/expected_road_trial makes the same files
// and works out the same numbers, apart from the planner and from the reference.
#![tactic(auto)]

use std::io;
use test_generated::tallies;
use test_reference_map::words;

mod trial;

fn try_family(rt: &impl Print, name: &[u8], whole: bool, count: u32) -> io::Result<()> {
    let mut found = [0u64; 49152];
    let mut differences = 0;
    for number in 0..count {
        let more = tallies::count(&mut found, trial::try_road(whole, number));
        differences = words::sum(differences, more);
    }
    rt.write_all(name)?;
    tallies::print_found(rt, u64::from(count), differences)?;
    tallies::print_below(rt, &found, 20)
}

fn main(rt: HostRuntime) -> io::Result<()> {
    try_family(&rt, b"road files", true, 1000)?;
    try_family(&rt, b"damaged road files", false, 6000)
}
