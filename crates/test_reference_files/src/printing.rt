// Texts, written behind what they have.
use test_reference_map::{nodes, words};

// Bytes for the longest planning file and some more, and for every text, and how many of them the text has. What is written past the bytes is
// counted alone.
#[derive(Clone, Copy)]
pub struct Text {
    pub bytes: [u8; 65544],
    pub length: u64,
}

// How many digits a number has.
fn digits(number: u64) -> u64 {
    (1..19)
        .find(|count| number < words::power(10, *count))
        .unwrap_or(19)
}

impl Text {
    // Nothing is written yet, and each byte is this one.
    pub fn full_of(byte: u8) -> Text {
        Text {
            bytes: [byte; 65544],
            length: 0,
        }
    }

    // What is written.
    pub fn written(&self) -> &[u8] {
        self.bytes
            .get(..self.length as usize)
            .unwrap_or(&self.bytes)
    }

    pub fn put(&mut self, byte: u8) {
        if let Some(place) = self.bytes.get_mut(self.length as usize) {
            *place = byte;
        }
        self.length = words::sum(self.length, 1);
    }

    // The letters of a word.
    pub fn word(&mut self, letters: &[u8]) {
        for letter in letters {
            self.put(*letter);
        }
    }

    // Digit by digit, the first one first.
    pub fn number(&mut self, number: u64) {
        for left in (0..digits(number)).rev() {
            let digit = words::quotient(number, words::power(10, left)) % 10;
            self.put(b'0' + digit as u8);
        }
    }

    // A number, or the sign for none.
    fn number_or_none(&mut self, word: u64) {
        if word == nodes::NONE {
            self.put(b'-');
        } else {
            self.number(word);
        }
    }

    // Numbers with commas between them.
    pub fn numbers(&mut self, numbers: &[u64]) {
        for (i, number) in numbers.iter().enumerate() {
            if i > 0 {
                self.put(b',');
            }
            self.number_or_none(*number);
        }
    }

    // The same and a line feed.
    pub fn line(&mut self, numbers: &[u64]) {
        self.numbers(numbers);
        self.put(b'\n');
    }
}
