// A line of a planning file written into just the bytes that it takes, and how many these are (document 01, "Planning file"; document 02,
// paper 5).
#![tactic(auto)]

ghost use Rattle.std.specs.Prelude.{◌≡◌, ◌+◌, ◌≤◌, length};
ghost use Rattle.fields.specs.Fields.{comma, render_line};
ghost use Rattle.fields.specs.Writing.{Writes};

use fields::reading::end_of;
use fields::writing::{decimal_length, put_ended};

// Each field is its digits and the byte that ends it.
pub fn line_length(values: &[u32]) -> usize
    requires { length values.now ≤ 7 }
    ensures { result ≡ length (render_line comma values.now) }
{
    let mut total = 0;
    for value in values {
        total += decimal_length(*value as u64) + 1;
    }
    total
}

pub fn put_line(buffer: &mut [u8], at: usize, values: &[u32]) -> usize
    requires { at + length (render_line comma values.now) ≤ length buffer.old }
    ensures { Writes at (render_line comma values.now) buffer.old buffer.new result }
{
    let count = values.len();
    let mut next = at;
    for (i, value) in values.iter().enumerate() {
        next = put_ended(buffer, next, *value as u64, end_of(i, count, b','));
    }
    next
}
