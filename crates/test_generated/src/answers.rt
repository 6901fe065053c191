// What a run has answered beside what it is to, number by number.
use model::{Fault, Run};
use test_reference_map::case::Counts;
use test_reference_map::refusal::Refusal;

// Number and place, then what a run counts.
fn numbers_of(answer: Result<Run, Fault>) -> [u64; 8] {
    match answer {
        Ok(run) => [
            0,
            0,
            u64::from(run.reached),
            u64::from(run.buckets),
            u64::from(run.counts.decreases),
            u64::from(run.counts.placements),
            u64::from(run.counts.looks),
            u64::from(run.counts.reads),
        ],
        Err(fault) => {
            let number = u64::from(fault.kind.number());
            [number, fault.place as u64, 0, 0, 0, 0, 0, 0]
        }
    }
}

fn numbers_expected(expected: Result<Counts, Refusal>) -> [u64; 8] {
    match expected {
        Ok(counts) => [
            0,
            0,
            counts.reached,
            counts.buckets,
            counts.decreases,
            counts.placements,
            counts.looks,
            counts.reads,
        ],
        Err(Refusal { number, place }) => [number, place, 0, 0, 0, 0, 0, 0],
    }
}

// How many numbers of an answer are not those expected.
pub fn differing_numbers(answer: Result<Run, Fault>, expected: Result<Counts, Refusal>) -> u64 {
    let given = numbers_of(answer);
    let wanted = numbers_expected(expected);
    let pairs = given.iter().zip(&wanted);
    pairs.filter(|(one, other)| one != other).count() as u64
}
