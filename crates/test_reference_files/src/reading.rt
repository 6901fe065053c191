// The lines of a planning file (document 01, "Planning file", and for the sixth field and the holds document 02, paper 2), field by field.
use test_reference_map::words;

// The digits from a place on, up to 8, and the number that they make.
#[derive(Clone, Copy)]
struct DigitsRead {
    count: u64,
    number: u64,
}

// A field and the place past what ends it.
#[derive(Clone, Copy)]
pub struct FieldRead {
    pub number: u64,
    pub next: u64,
}

// Line 1, of five fields or with a sixth that says that holds follow the arcs, and the place past it.
#[derive(Clone, Copy)]
pub struct Header {
    pub nodes: u64,
    pub arcs: u64,
    pub ceiling: u64,
    pub source: u64,
    pub segments: u64,
    pub with_holds: bool,
    pub next: u64,
}

// The fields of line 1 from the fifth on, and the place past it.
#[derive(Clone, Copy)]
struct HeaderEnd {
    segments: u64,
    with_holds: bool,
    next: u64,
}

// The line of an arc, and the place past it.
#[derive(Clone, Copy)]
pub struct ArcLine {
    pub tail: u64,
    pub head: u64,
    pub cost: u64,
    pub next: u64,
}

// A byte of the file; past its end 0, which no field and no line has.
pub fn byte(bytes: &[u8], place: u64) -> u8 {
    bytes.get(place as usize).copied().unwrap_or(0)
}

fn digits(bytes: &[u8], from: u64) -> DigitsRead {
    let mut number = 0;
    for count in 0..8 {
        let digit = byte(bytes, words::sum(from, count));
        if !digit.is_ascii_digit() {
            return DigitsRead { count, number };
        }
        number = words::sum(words::product(number, 10), u64::from(digit - b'0'));
    }
    DigitsRead { count: 8, number }
}

// 1 to 7 digits, no leading zero except 0 itself, then the byte that ends the field; nothing if it is ill-formed.
pub fn field(bytes: &[u8], from: u64, last: u8) -> Option<FieldRead> {
    let DigitsRead { count, number } = digits(bytes, from);
    let past = words::sum(from, count);
    let zero_leads = byte(bytes, from) == b'0' && count > 1;
    if count < 1 || count > 7 || zero_leads || byte(bytes, past) != last {
        return None;
    }
    Some(FieldRead {
        number,
        next: words::sum(past, 1),
    })
}

// K alone, or K and a field that is 1.
fn header_end(bytes: &[u8], from: u64) -> Option<HeaderEnd> {
    if let Some(last) = field(bytes, from, b'\n') {
        return Some(HeaderEnd {
            segments: last.number,
            with_holds: false,
            next: last.next,
        });
    }
    let segments = field(bytes, from, b',')?;
    let sixth = field(bytes, segments.next, b'\n')?;
    if sixth.number != 1 {
        return None;
    }
    Some(HeaderEnd {
        segments: segments.number,
        with_holds: true,
        next: sixth.next,
    })
}

pub fn read_header(bytes: &[u8]) -> Option<Header> {
    let nodes = field(bytes, 0, b',')?;
    let arcs = field(bytes, nodes.next, b',')?;
    let ceiling = field(bytes, arcs.next, b',')?;
    let source = field(bytes, ceiling.next, b',')?;
    let end = header_end(bytes, source.next)?;
    Some(Header {
        nodes: nodes.number,
        arcs: arcs.number,
        ceiling: ceiling.number,
        source: source.number,
        segments: end.segments,
        with_holds: end.with_holds,
        next: end.next,
    })
}

pub fn read_arc(bytes: &[u8], from: u64) -> Option<ArcLine> {
    let tail = field(bytes, from, b',')?;
    let head = field(bytes, tail.next, b',')?;
    let cost = field(bytes, head.next, b'\n')?;
    Some(ArcLine {
        tail: tail.number,
        head: head.number,
        cost: cost.number,
        next: cost.next,
    })
}

// The line of a hold.
pub fn read_hold(bytes: &[u8], from: u64) -> Option<FieldRead> {
    field(bytes, from, b'\n')
}
