// A buffer of which a part is lent, full of junk before: what stands before that part, behind it and behind a file in it is to stay.
#![tactic(auto)]

// Where the part that is lent begins.
const FIRST: usize = 8;

// Different from byte to byte, and no byte of a planning file. No buffer has 2^32 bytes, and the remainder of a short word costs less.
fn junk(i: usize) -> u8 {
    ((i % 4294967296) as u32 % 61 + 128) as u8
}

pub fn fill(buffer: &mut [u8]) {
    for (i, byte) in buffer.iter_mut().enumerate() {
        *byte = junk(i);
    }
}

// So many bytes, or all of the buffer if it has not so many.
pub fn lent(buffer: &mut [u8], room: usize) -> &mut [u8] {
    if buffer.len() < FIRST || buffer.len() - FIRST < room {
        return buffer;
    }
    &mut buffer[FIRST..FIRST + room]
}

// The first bytes of a buffer, or all of it if it has no more.
pub fn front(buffer: &mut [u8], bytes: usize) -> &mut [u8] {
    if buffer.len() < bytes {
        return buffer;
    }
    &mut buffer[..bytes]
}

// The file of so many bytes that the lent part begins with.
pub fn file_in(buffer: &[u8], bytes: usize) -> &[u8] {
    let behind = buffer.get(FIRST..).unwrap_or(buffer);
    behind.get(..bytes).unwrap_or(buffer)
}

// Whether a place is in that file.
fn is_in_file(i: usize, bytes: usize) -> bool {
    i >= FIRST && i - FIRST < bytes
}

// How many bytes outside of that file are not as they were.
pub fn changed(buffer: &[u8], bytes: usize) -> u64 {
    let outside = buffer
        .iter()
        .enumerate()
        .filter(|(i, _)| !is_in_file(*i, bytes));
    outside.filter(|(i, byte)| **byte != junk(*i)).count() as u64
}
