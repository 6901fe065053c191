// Bytes, numbers and fields written into a lent buffer at a place (document 01, "Planning file"). Each function gives back the place
// behind what it wrote.
ghost use Rattle.std.specs.Prelude.{◌≡◌, ◌+◌, ◌≤◌, ◌<◌, [], ◌∷◌, ◌++◌, length};
ghost use Rattle.fields.specs.Fields.{decimal};
ghost use Rattle.fields.specs.Writing.{Writes};

pub fn put_byte(buffer: &mut [u8], at: usize, byte: u8) -> usize
    requires { at < length buffer.old }
    ensures { Writes at (byte ∷ []) buffer.old buffer.new result }
{
    buffer[at] = byte;
    at + 1
}

// All digits but the last are those of a tenth of the number.
#[tactic(auto, using(crate::proofs::Decimals::digit_alone))]
pub fn put_digits(buffer: &mut [u8], at: usize, value: u64) -> usize
    requires { at + length (decimal value) ≤ length buffer.old }
    ensures { Writes at (decimal value) buffer.old buffer.new result }
{
    if value < 10 {
        return put_byte(buffer, at, 48 + value as u8);
    }
    let last = put_digits(buffer, at, value / 10);
    put_byte(buffer, last, 48 + (value % 10) as u8)
}

// Where there is room for the longest number.
pub fn put_number(buffer: &mut [u8], at: usize, value: u64) -> usize
    requires { at + 20 ≤ length buffer.old }
    ensures { Writes at (decimal value) buffer.old buffer.new result }
{
    put_digits(buffer, at, value)
}

// A number, and the byte that ends it.
pub fn put_ended(buffer: &mut [u8], at: usize, value: u64, end: u8) -> usize
    requires { at + length (decimal value) + 1 ≤ length buffer.old }
    ensures { Writes at (decimal value ++ (end ∷ [])) buffer.old buffer.new result }
{
    let next = put_digits(buffer, at, value);
    put_byte(buffer, next, end)
}

// The same, where there is room for the longest number.
pub fn put_field(buffer: &mut [u8], at: usize, value: u64, end: u8) -> usize
    requires { at + 21 ≤ length buffer.old }
    ensures { Writes at (decimal value ++ (end ∷ [])) buffer.old buffer.new result }
{
    put_ended(buffer, at, value, end)
}

// The digits of a number: one, and one more for each time that it can be divided by ten.
pub fn decimal_length(value: u64) -> usize
    ensures { result ≡ length (decimal value) }
{
    let mut length = 1;
    let mut rest = value;
    while rest >= 10 {
        rest = rest / 10;
        length += 1;
    }
    length
}

pub fn put_bytes(buffer: &mut [u8], at: usize, bytes: &[u8]) -> usize
    requires { at + length bytes.now ≤ length buffer.old }
    ensures { Writes at bytes.now buffer.old buffer.new result }
{
    let mut next = at;
    for byte in bytes {
        next = put_byte(buffer, next, *byte);
    }
    next
}
