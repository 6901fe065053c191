// Files damaged: a byte changed, put in or taken out, a line dropped, doubled or swapped, the end cut.
#![tactic(auto)]

use test_generated::random;
use test_reference_files::printing::Text;
use test_reference_files::reading;
use test_reference_map::words;

// What a damaged file is put together from: the bytes up to a place, a byte, and the bytes between two places, twice, then those from a
// place to the end.
#[derive(Clone, Copy)]
struct Pieces {
    end: u64,
    byte: Option<u8>,
    second: u64,
    second_end: u64,
    third: u64,
    third_end: u64,
    rest: u64,
}

// Where the line that holds a place begins.
fn line_start(file: &[u8], place: u64) -> u64 {
    let line_feed = (0..place)
        .rev()
        .find(|at| reading::byte(file, *at) == b'\n');
    line_feed.map_or(0, |at| words::sum(at, 1))
}

// The place past the line feed that follows a place, which is in the file.
fn line_end(file: &[u8], place: u64) -> u64 {
    let end = file.len() as u64;
    let line_feed = (place..end).find(|at| reading::byte(file, *at) == b'\n');
    line_feed.map_or(end, |at| words::sum(at, 1))
}

// The bytes from one place to another.
fn between(file: &[u8], from: u64, end: u64) -> &[u8] {
    file.get(from as usize..end as usize).unwrap_or(&[])
}

// The file of the pieces, and as many bytes behind it as make it so long.
fn pieced(file: &[u8], pieces: Pieces, least: u64) -> Text {
    let mut copy = Text::full_of(0);
    copy.word(between(file, 0, pieces.end));
    if let Some(byte) = pieces.byte {
        copy.put(byte);
    }
    copy.word(between(file, pieces.second, pieces.second_end));
    copy.word(between(file, pieces.third, pieces.third_end));
    copy.word(between(file, pieces.rest, file.len() as u64));
    for _ in copy.length..least {
        copy.put(b'0');
    }
    copy
}

// The bytes up to a place, a byte if there is one, and those from a place on.
fn two_pieces(end: u64, byte: Option<u8>, rest: u64) -> Pieces {
    Pieces {
        end,
        byte,
        second: 0,
        second_end: 0,
        third: 0,
        third_end: 0,
        rest,
    }
}

// What becomes of a line.
#[derive(Clone, Copy)]
enum Line {
    Dropped,
    Doubled,
    Swapped,
}

// The line at a place is dropped, doubled or swapped with the next.
fn damaged_line(file: &[u8], line: Line, place: u64) -> Pieces {
    let start = line_start(file, place);
    let end = line_end(file, start);
    let next = line_end(file, end);
    match line {
        Line::Dropped => two_pieces(start, None, end),
        Line::Doubled => two_pieces(end, None, start),
        Line::Swapped => Pieces {
            end: start,
            byte: None,
            second: end,
            second_end: next,
            third: start,
            third_end: end,
            rest: next,
        },
    }
}

// One of six bytes that a file has or might have, any byte, or a digit.
fn any_byte(likely: &[u8], word: u64) -> u8 {
    let kind = random::below(word, 8);
    match kind {
        5 => (random::below(random::next(word), 256) % 256) as u8,
        6 => reading::byte(likely, 5),
        7 => b'0' + (random::below(random::next(word), 10) % 10) as u8,
        _ => reading::byte(likely, u64::from(kind)),
    }
}

// A byte is changed, put in or taken out.
fn damaged_byte(likely: &[u8], word: u64, place: u64) -> Pieces {
    let after = words::sum(place, 1);
    let byte = any_byte(likely, random::next(word));
    match random::below(word, 4) {
        0 => two_pieces(place, None, after),
        1 => two_pieces(place, Some(byte), place),
        _ => two_pieces(place, Some(byte), after),
    }
}

// Any place of a file from the first on.
fn any_place(first: u64, length: u64, word: u64) -> u64 {
    let part = words::product(
        u64::from(random::below(word, 1048576)),
        words::minus(length, first),
    );
    words::sum(first, part / 1048576)
}

// A file damaged in one way, at a place from the first on.
fn any_pieces(file: &[u8], first: u64, likely: &[u8], word: u64) -> Pieces {
    let length = file.len() as u64;
    let second = random::next(word);
    let third = random::next(second);
    let place = any_place(first, length, third);
    match random::below(second, 8) {
        0 => two_pieces(place, None, length),
        1 => damaged_line(file, Line::Dropped, place),
        2 => damaged_line(file, Line::Doubled, place),
        3 => damaged_line(file, Line::Swapped, place),
        4 => two_pieces(length, None, length),
        _ => damaged_byte(likely, random::next(third), place),
    }
}

// A file damaged from a place on in a way that a word tells, and as many bytes behind it as make it so long.
pub fn damaged_from(file: &[u8], first: u64, likely: &[u8], word: u64, least: u64) -> Text {
    pieced(file, any_pieces(file, first, likely, word), least)
}

// The same anywhere.
pub fn damaged(file: &[u8], likely: &[u8], word: u64, least: u64) -> Text {
    damaged_from(file, 0, likely, word, least)
}
