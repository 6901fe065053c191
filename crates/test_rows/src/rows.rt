// The rows of the input: a word, then numbers, each parted from the next by one blank or comma.
ghost use Rattle.std.specs.Prelude.{◌≤◌, length};

// Where the line that starts at a byte ends: its line feed, or the end of the input.
pub fn line_end(input: &[u8], at: usize) -> usize
    requires { at ≤ length input.now }
    ensures lower_bound { at ≤ result }
    ensures upper_bound { result ≤ length input.now }
{
    match input[at..].iter().position(|byte| *byte == b'\n') {
        Some(behind) => at + behind,
        None => input.len(),
    }
}

// `next` is where the field behind it starts.
#[derive(Clone, Copy)]
pub struct Field {
    pub value: u32,
    pub next: usize,
}

// A number takes one digit more; a word counts as its first letter and 256 times its second.
fn longer(value: u32, byte: u8) -> u32 {
    if byte <= b'9' {
        return ((value as u64 * 10 + (byte % 16) as u64) % 4294967296) as u32;
    }
    if value == 0 {
        return byte as u32;
    }
    if value < 256 {
        return value + 256 * byte as u32;
    }
    value
}

// The field that starts at a byte; one that is not there counts as 0.
pub fn field_at(line: &[u8], at: usize) -> Field {
    let mut value: u32 = 0;
    for i in at..line.len() {
        let byte = line[i];
        if byte < b'0' {
            return Field { value, next: i + 1 };
        }
        value = longer(value, byte);
    }
    Field {
        value,
        next: line.len(),
    }
}

// The first letter of a row's word and the row's numbers in their order; where the text behind the word starts, that behind the first number,
// and where the words behind a list and a place.
#[derive(Clone, Copy)]
pub struct Row {
    pub word: u8,
    pub n1: u32,
    pub n2: u32,
    pub n3: u32,
    pub n4: u32,
    pub n5: u32,
    pub n6: u32,
    pub n7: u32,
    pub n8: u32,
    pub n9: u32,
    pub n10: u32,
    pub n11: u32,
    pub n12: u32,
    pub text: usize,
    pub after: usize,
    pub words: usize,
}

pub fn row_of(line: &[u8]) -> Row {
    let word = field_at(line, 0);
    let f1 = field_at(line, word.next);
    let f2 = field_at(line, f1.next);
    let f3 = field_at(line, f2.next);
    let f4 = field_at(line, f3.next);
    let f5 = field_at(line, f4.next);
    let f6 = field_at(line, f5.next);
    let f7 = field_at(line, f6.next);
    let f8 = field_at(line, f7.next);
    let f9 = field_at(line, f8.next);
    let f10 = field_at(line, f9.next);
    let f11 = field_at(line, f10.next);
    let f12 = field_at(line, f11.next);
    Row {
        word: (word.value % 256) as u8,
        n1: f1.value,
        n2: f2.value,
        n3: f3.value,
        n4: f4.value,
        n5: f5.value,
        n6: f6.value,
        n7: f7.value,
        n8: f8.value,
        n9: f9.value,
        n10: f10.value,
        n11: f11.value,
        n12: f12.value,
        text: word.next,
        after: f1.next,
        words: f2.next,
    }
}
