// A planning file and the place in it, kept together, and the lines that are read there (document 01, "Planning file").
#![tactic(auto)]

ghost use Rattle.std.specs.Prelude.{◌≡◌, ◌≤◌, length, drop};
ghost use Rattle.cursor.specs.Lines.{line_numbers};
ghost use Rattle.cursor.specs.Unread.{unread};

use lines::read_numbers;

mod lines;

// A line's numbers, those past its last field 0, and the bytes that it takes.
#[derive(Clone, Copy)]
pub struct LineNumbers {
    pub numbers: [u32; 7],
    pub taken: usize,
}

// The place is the first byte that is still unread.
#[derive(Clone, Copy)]
pub struct Cursor<'a> {
    pub bytes: &'a [u8],
    pub at: usize,
}

impl<'a> Cursor<'a> {
    pub fn new(bytes: &'a [u8], at: usize) -> Self
        ensures { (result.bytes ≡ bytes.entry) × (result.at ≡ at) }
    {
        Cursor { bytes, at }
    }

    // The line of so many fields, at most seven.
    pub fn numbers(self, count: usize) -> Option<LineNumbers>
        requires { (self.at ≤ length self.bytes.now) × ((1 ≤ count) × (count ≤ 7)) }
        ensures { result ≡ line_numbers count (unread self.entry) }
    {
        read_numbers(self.bytes, self.at, count)
    }

    // How many bytes are left over.
    pub fn left_over(self) -> usize
        requires { self.at ≤ length self.bytes.now }
        ensures { result ≡ length (unread self.entry) }
    {
        self.bytes.len() - self.at
    }
}

// Between two lines the passes keep the place as a number. They read by the two functions below, which need no cursor of their callers.
pub fn numbers_at(bytes: &[u8], at: usize, count: usize) -> Option<LineNumbers>
    requires { (at ≤ length bytes.now) × ((1 ≤ count) × (count ≤ 7)) }
    ensures { result ≡ line_numbers count (drop at bytes.now) }
{
    Cursor::new(bytes, at).numbers(count)
}

pub fn left_over_at(bytes: &[u8], at: usize) -> usize
    requires { at ≤ length bytes.now }
    ensures { result ≡ length (drop at bytes.now) }
{
    Cursor::new(bytes, at).left_over()
}
