// Fields and lines read from bytes (document 01, "Planning file").
ghost use Rattle.std.specs.Prelude.{◌≡◌, ◌≤◌, ◌<◌, length, get_or, drop};
ghost use Rattle.fields.specs.Fields.{field, is_digit, byte_at, line_ends, line};
ghost use Rattle.fields.specs.Reading.{DigitsRead, line_taken, fields_into};

use crate::Field;

// The digits at a place, of which one more than a field has are enough to refuse it, and the number that they spell.
#[derive(Clone, Copy)]
struct Digits {
    count: usize,
    value: u32,
}

// The three functions that read a line are inlined into each reader, whose fields then have loops and branches of their own: with one loop for
// the digits of every field a road file took a quarter more time.

// The field at a place of the bytes, ended by byte `end`.
#[inline(always)]
pub fn field_at(bytes: &[u8], at: usize, end: u8) -> Option<Field>
    requires { at ≤ length bytes.now }
    ensures { result ≡ field end (drop at bytes.now) }
{
    let read = digits_at(bytes, at);
    let count = read.count;
    let alone = (count == 1) | (byte_at(bytes, at) != 48);
    let ended = byte_at(bytes, at + count) == end as u32;
    if (count >= 1) & (count <= 7) & alone & ended {
        Some(Field {
            value: read.value,
            taken: count + 1,
        })
    } else {
        None
    }
}

// The bytes that the line at a place takes, of as many fields as there are words for their values. Where it is ill-formed, the values of
// the fields before the fault are written.
#[inline(always)]
pub fn line_at(bytes: &[u8], at: usize, separator: u8, values: &mut [u32]) -> Option<usize>
    requires at_in_bounds { at ≤ length bytes.now }
    requires in_bounds { 1 ≤ length values.old }
    ensures answer { result ≡ line_taken (line separator (length values.old) (drop at bytes.now)) }
    ensures list { values.new ≡ fields_into (line_ends separator (length values.old)) (drop at bytes.now) values.old }
{
    let count = values.len();
    let mut next = at;
    for i in 0..count {
        let end = end_of(i, count, separator);
        let field = field_at(bytes, next, end)?;
        values[i] = field.value;
        next += field.taken;
    }
    Some(next - at)
}

// What ends field i of so many.
pub fn end_of(i: usize, count: usize, separator: u8) -> u8
    requires { i < count }
    ensures end { result ≡ get_or (line_ends separator count) i 0 }
    ensures byte { result < 256 }
{
    if i + 1 < count { separator } else { 10 }
}

#[inline(always)]
fn digits_at(bytes: &[u8], at: usize) -> Digits
    requires { at ≤ length bytes.now }
    ensures { DigitsRead (drop at bytes.now) result.count result.value }
{
    let mut value = 0;
    for count in 0..8 {
        let byte = byte_at(bytes, at + count);
        if !is_digit(byte) {
            return Digits { count, value };
        }
        value = 10 * value + (byte - 48);
    }
    Digits { count: 8, value }
}

fn is_digit(byte: u32) -> bool
    ensures { result ≡ is_digit byte }
{
    (byte >= 48) & (byte <= 57)
}

// Past the last byte it is 256, which is neither a digit nor what ends a field.
fn byte_at(bytes: &[u8], i: usize) -> u32
    ensures { result ≡ byte_at bytes.now i }
{
    if i < bytes.len() {
        bytes[i] as u32
    } else {
        256
    }
}
