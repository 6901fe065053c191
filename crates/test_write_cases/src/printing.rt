// What a row gives: the answer, the file, and what has become of the rest of the buffer.
use model::Fault;
use std::io;
use test_rows::printing::print_number;

// Number and place, and the length of the file.
fn print_answer(rt: &impl Print, answer: Result<usize, Fault>) -> io::Result<()> {
    match answer {
        Ok(length) => print_numbers(rt, [0, 0, length as u64]),
        Err(fault) => print_numbers(rt, [u64::from(fault.kind.number()), fault.place as u64, 0]),
    }
}

fn print_numbers(rt: &impl Print, numbers: [u64; 3]) -> io::Result<()> {
    rt.write_all(b"answer")?;
    for number in numbers {
        print_number(rt, number)?;
    }
    rt.write_all(b"\n")
}

// How many bytes of the buffer are not the file's, and how many of these are not as before.
fn print_rest(rt: &impl Print, buffer: &[u8], file: &[u8]) -> io::Result<()> {
    let length = file.len();
    rt.write_all(b"rest")?;
    if let Some(rest) = buffer.len().checked_sub(length) {
        print_number(rt, rest as u64)?;
    }
    print_number(rt, test_buffers::changed(buffer, length))?;
    rt.write_all(b"\n")
}

pub fn print_text(rt: &impl Print, answer: Result<usize, Fault>, buffer: &[u8]) -> io::Result<()> {
    // A refusal writes no byte.
    let file = test_buffers::file_in(buffer, answer.unwrap_or(0));
    print_answer(rt, answer)?;
    rt.write_all(file)?;
    print_rest(rt, buffer, file)
}

pub fn print_sums(rt: &impl Print, answer: Result<usize, Fault>, buffer: &[u8]) -> io::Result<()> {
    let file = test_buffers::file_in(buffer, answer.unwrap_or(0));
    print_answer(rt, answer)?;
    rt.write_all(b"bytes")?;
    print_number(rt, file.len() as u64)?;
    test_rows::printing::print_sums(rt, file)?;
    rt.write_all(b"\n")?;
    print_rest(rt, buffer, file)
}
