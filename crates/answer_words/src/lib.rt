// The numbers of each answer as the words of an array, for callers that take no Result (document 01, "What a call returns").
#![tactic(auto)]

ghost use Rattle.std.specs.Prelude.{◌≡◌, ◌≤◌};
ghost use Rattle.model.specs.Answers.{numbers_of};
ghost use Rattle.route.specs.Routes.{route_numbers_of};
ghost use Rattle.reader.specs.Promise.{plan_numbers_of};
ghost use Rattle.dimacs.specs.Promise.{dimacs_numbers_of};
ghost use Rattle.writer.specs.Promise.{write_numbers_of};
ghost use Rattle.answer_words.specs.Words.{refused_words, run_words, route_words, read_words, dimacs_words, write_words};

use dimacs::RoadSize;
use model::{Fault, Run};
use reader::PlanHeader;

pub fn run_words(answer: Result<Run, Fault>) -> [u64; 8]
    ensures { result ≡ run_words (numbers_of answer) }
{
    match answer {
        Ok(run) => [
            0,
            0,
            run.reached as u64,
            run.buckets as u64,
            run.counts.decreases as u64,
            run.counts.placements as u64,
            run.counts.looks as u64,
            run.counts.reads as u64,
        ],
        Err(fault) => refused_words::<8>(fault.kind.number(), fault.place),
    }
}

pub fn route_words(answer: Result<usize, Fault>) -> [u64; 3]
    ensures { result ≡ route_words (route_numbers_of answer) }
{
    match answer {
        Ok(nodes) => [0, 0, nodes as u64],
        Err(fault) => refused_words::<3>(fault.kind.number(), fault.place),
    }
}

pub fn read_words(answer: Result<PlanHeader, Fault>) -> [u64; 7]
    ensures { result ≡ read_words (plan_numbers_of answer) }
{
    match answer {
        Ok(header) => [
            0,
            0,
            header.nodes as u64,
            header.arcs as u64,
            header.ceiling as u64,
            header.source.0 as u64,
            header.segments as u64,
        ],
        Err(refused) => refused_words::<7>(refused.kind.number(), refused.place),
    }
}

pub fn dimacs_words(answer: Result<RoadSize, Fault>) -> [u64; 4]
    ensures { result ≡ dimacs_words (dimacs_numbers_of answer) }
{
    match answer {
        Ok(size) => [0, 0, size.nodes as u64, size.arcs as u64],
        Err(fault) => refused_words::<4>(fault.kind.number(), fault.place),
    }
}

pub fn write_words(answer: Result<usize, Fault>) -> [u64; 3]
    ensures { result ≡ write_words (write_numbers_of answer) }
{
    match answer {
        Ok(length) => [0, 0, length as u64],
        Err(refused) => refused_words::<3>(refused.kind.number(), refused.place),
    }
}

// The words of a refusal, whatever its number.
pub fn refused_words<const N: usize>(number: u32, place: usize) -> [u64; N]
    requires { 2 ≤ N }
    ensures { result ≡ refused_words N number place }
{
    let mut words = [0; N];
    words[0] = number as u64;
    words[1] = place as u64;
    words
}
