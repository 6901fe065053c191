// The lines of a planning file (document 01, "Planning file").
ghost use Rattle.std.specs.Prelude.{◌≡◌, ◌≤◌, length, drop};
ghost use Rattle.cursor.specs.Lines.{line_numbers};

use crate::LineNumbers;
use fields::reading::line_at;

pub fn read_numbers(bytes: &[u8], at: usize, count: usize) -> Option<LineNumbers>
    requires { (at ≤ length bytes.now) × ((1 ≤ count) × (count ≤ 7)) }
    ensures { result ≡ line_numbers count (drop at bytes.now) }
{
    let mut numbers = [0u32; 7];
    let taken = line_at(bytes, at, b',', &mut numbers[..count])?;
    Some(LineNumbers { numbers, taken })
}
