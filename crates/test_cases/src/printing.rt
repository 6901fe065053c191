// What a row gives, in numbers.
use model::{Fault, Run};
use reader::PlanHeader;
use std::io;
use test_rows::printing::print_number;

fn print_answer(rt: &impl Print, numbers: [u64; 8]) -> io::Result<()> {
    rt.write_all(b"answer")?;
    for number in numbers {
        print_number(rt, number)?;
    }
    rt.write_all(b"\nsums")
}

// Number and place, then r, B, decreases, placements, looks and reads.
pub fn print_run(rt: &impl Print, answer: Result<Run, Fault>) -> io::Result<()> {
    match answer {
        Ok(run) => print_answer(
            rt,
            [
                0,
                0,
                run.reached as u64,
                run.buckets as u64,
                run.counts.decreases as u64,
                run.counts.placements as u64,
                run.counts.looks as u64,
                run.counts.reads as u64,
            ],
        ),
        Err(fault) => {
            print_answer(
                rt,
                [
                    u64::from(fault.kind.number()),
                    fault.place as u64,
                    0,
                    0,
                    0,
                    0,
                    0,
                    0,
                ],
            )
        }
    }
}

// Number and place, then n, m, C, source and K.
pub fn print_read(rt: &impl Print, answer: Result<PlanHeader, Fault>) -> io::Result<()> {
    match answer {
        Ok(header) => print_answer(
            rt,
            [
                0,
                0,
                header.nodes as u64,
                header.arcs as u64,
                header.ceiling as u64,
                header.source.0 as u64,
                header.segments as u64,
                0,
            ],
        ),
        Err(fault) => {
            print_answer(
                rt,
                [
                    u64::from(fault.kind.number()),
                    fault.place as u64,
                    0,
                    0,
                    0,
                    0,
                    0,
                    0,
                ],
            )
        }
    }
}

// Number and place, then how many nodes the route has.
pub fn print_route(rt: &impl Print, answer: Result<usize, Fault>) -> io::Result<()> {
    match answer {
        Ok(nodes) => print_answer(rt, [0, 0, nodes as u64, 0, 0, 0, 0, 0]),
        Err(fault) => {
            print_answer(
                rt,
                [
                    u64::from(fault.kind.number()),
                    fault.place as u64,
                    0,
                    0,
                    0,
                    0,
                    0,
                    0,
                ],
            )
        }
    }
}
