// A file that rows make; each function gives the place past what it has written. Nothing is written past the file's end.
use itoa::Buffer;

pub fn put(file: &mut [u8], at: usize, byte: u8) -> usize {
    if at < file.len() {
        file[at] = byte;
        return at + 1;
    }
    at
}

// The bytes from a place on.
pub fn append(file: &mut [u8], at: usize, bytes: &[u8], from: usize) -> usize {
    let mut next = at;
    for i in from..bytes.len() {
        next = put(file, next, bytes[i]);
    }
    next
}

// The same and a line feed.
pub fn append_line(file: &mut [u8], at: usize, bytes: &[u8], from: usize) -> usize {
    let next = append(file, at, bytes, from);
    put(file, next, b'\n')
}

pub fn append_number(file: &mut [u8], at: usize, number: u32, ended_by: u8) -> usize {
    let mut digits = Buffer::new();
    let next = append(file, at, digits.format(number).as_bytes(), 0);
    put(file, next, ended_by)
}

// The file made so far.
pub fn made(file: &[u8], length: usize) -> &[u8] {
    file.get(..length).unwrap_or(file)
}
