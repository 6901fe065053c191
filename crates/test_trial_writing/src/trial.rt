// A map written beside the plain writer: the numbers of the answer, every byte of the file, those before and behind it, and the file read back.
use crate::families::Family;
use crate::read_back;
use checks::Given;
use model::{Fault, Node};
use test_generated::tallies::Found;
use test_generated::{lists, random, tallies};
use test_reference_map::case::{Case, Height};
use test_reference_map::map::Lists;
use test_reference_map::nodes::Table;
use test_reference_map::refusal::{Refusal, refuse};
use test_reference_map::{map, words};
use test_reference_search::refusals;
use test_rows::bytes;

// The length of the file that is written, or what the map is refused for.
type Outcome = Result<usize, Refusal>;

fn outcome_of(answer: Result<usize, Fault>) -> Outcome {
    match answer {
        Ok(length) => Ok(length),
        Err(fault) => refuse(u64::from(fault.kind.number()), fault.place as u64),
    }
}

// A map, what it is refused for, and the plain file; an empty one of a map that is refused.
#[derive(Clone, Copy)]
struct Trial<'a> {
    case: Case,
    lists: &'a Lists,
    checked: Result<(), Refusal>,
    plain: &'a [u8],
}

// What is to come of it in so much room.
fn expected(trial: Trial, room: usize) -> Outcome {
    trial.checked?;
    let length = trial.plain.len();
    if room < length {
        return refuse(10, 0);
    }
    Ok(length)
}

// How many bytes of a file are not those of the plain one, which is no shorter.
fn differing_bytes(file: &[u8], plain: &[u8]) -> u64 {
    let pairs = file.iter().zip(plain);
    pairs.filter(|(one, other)| one != other).count() as u64
}

fn write(case: Case, lists: &Lists, bytes: &mut [u8]) -> Result<usize, Fault> {
    let given = Given {
        nodes: case.nodes,
        ceiling: case.ceiling,
        source: Node(case.source),
        starts: lists::part(lists, map::STARTS, case.starts),
        heads: lists::part(lists, map::HEADS, case.heads),
        costs: lists::part(lists, map::COSTS, case.costs),
        holds: lists::part(lists, map::HOLDS, case.holds),
    };
    writer::write(given, case.segments, bytes)
}

// A write into so many bytes of a buffer.
fn try_room(trial: Trial, room: usize, buffer: &mut [u8]) -> Found {
    test_buffers::fill(buffer);
    let answer = write(trial.case, trial.lists, test_buffers::lent(buffer, room));
    let outcome = expected(trial, room);
    let length = outcome.unwrap_or(0);
    let file = test_buffers::file_in(buffer, length);
    let in_answer = u64::from(outcome_of(answer) != outcome);
    let in_file = differing_bytes(file, trial.plain);
    let in_rest = test_buffers::changed(buffer, length);
    let in_map = match outcome {
        Ok(_) => read_back::differences(trial.case, trial.lists, file),
        Err(_) => 0,
    };
    Found {
        number: outcome.err().map_or(0, |refusal| refusal.number),
        differences: words::sum(words::sum(in_answer, in_file), words::sum(in_rest, in_map)),
    }
}

// The write is counted under its number; its differences. Some bytes behind the longest room are looked at too.
fn try_write(trial: Trial, room: usize, buffer: &mut [u8], found: &mut Table) -> u64 {
    let looked_at = trial.plain.len().saturating_add(600);
    let part = test_buffers::front(buffer, looked_at);
    tallies::count(found, try_room(trial, room, part))
}

// Into just enough bytes, into one less and into some more.
fn try_rooms(trial: Trial, more: u32, buffer: &mut [u8], found: &mut Table) -> u64 {
    let enough = trial.plain.len();
    let exact = try_write(trial, enough, buffer, found);
    let short = try_write(trial, enough.saturating_sub(1), buffer, found);
    let room = enough.saturating_add(more as usize);
    let longer = try_write(trial, room, buffer, found);
    words::sum(exact, words::sum(short, longer))
}

fn try_case(
    case: Case,
    lists: &Lists,
    more: u32,
    text: &mut [u8],
    buffer: &mut [u8],
    found: &mut Table,
) -> u64 {
    let checked = refusals::check(Some(Height::Two), case, lists);
    let length = match checked {
        Ok(()) => test_reference_writing::write(text, case, lists),
        Err(_) => 0,
    };
    let trial = Trial {
        case,
        lists,
        checked,
        plain: bytes::made(text, length),
    };
    try_rooms(trial, more, buffer, found)
}

fn try_small(case: Case, lists: &Lists, more: u32, found: &mut Table) -> u64 {
    let mut text = [0u8; 32768];
    let mut buffer = [0u8; 33536];
    try_case(case, lists, more, &mut text, &mut buffer, found)
}

// Arrays of this size are lent whole, so that their lengths need no proof.
fn try_arrays(
    case: Case,
    lists: &Lists,
    more: u32,
    text: &mut [u8; 1212445],
    buffer: &mut [u8; 1213100],
    found: &mut Table,
) -> u64 {
    try_case(case, lists, more, text, buffer, found)
}

// No file has more bytes than the text.
fn try_large(case: Case, lists: &Lists, more: u32, found: &mut Table) -> u64 {
    let mut text = [0u8; 1212445];
    let mut buffer = [0u8; 1213100];
    try_arrays(case, lists, more, &mut text, &mut buffer, found)
}

// The differences in the writes of the map of a number.
pub fn try_map(family: Family, number: u32, found: &mut Table) -> u64 {
    let mut lists = [lists::MAP; 139296];
    let case = family.fill(number, &mut lists);
    let more = random::below(random::seed(105, number), 500) % 500 + 1;
    match family {
        Family::Large => try_large(case, &lists, more, found),
        _ => try_small(case, &lists, more, found),
    }
}
