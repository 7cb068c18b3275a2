// Answers stored calls, one a line of standard input: `MODULE CALL ARGUMENTS`. Each answer is a line: what the call said, and what became of the rooms that it was
// lent or of the record that it was given. A line with `//` in front is copied, and one that is no call is printed behind a question mark. The stored output is
// what the original Rust answers to the same lines.
#![tactic(auto)]

mod dcch_blocks;
mod facch_words;
mod lending;
mod lent;
mod page;
mod records;
mod sacch_words;
mod speech_frames;
mod steps;
mod told;

use calls::arguments::Arguments;
use calls::errors::LineError;
use calls::tally::Tally;
use lending::Line;
use page::Page;
use std::io;
use std::io::{Read, Write};
use text::buffer::Buffer;

// No line is longer.
const LONGEST: usize = 2048;

// Of a line so much is kept as shows that it is too long.
const KEPT: usize = LONGEST + 1;

// Counts the answers to every turn of a line. (Over numbers: a turn is its number, which stands in the bytes of the line.)
fn sweep(line: Line<'_>, turns: usize) -> Result<Tally, LineError> {
    let mut tally = Tally::default();
    for turn in 0..turns {
        let mut arguments = Arguments::read(line.arguments, turn)?;
        let told = line.call(&mut arguments)?;
        tally.count(told.answer, told.is_untouched());
    }
    Ok(tally)
}

// Writes what is answered to a line, where it is a call.
fn answer<W: Write>(out: &mut W, text: &str) -> Result<io::Result<()>, LineError> {
    let line = Line::split(text)?;
    let mut arguments = Arguments::read(line.arguments, 0)?;
    match arguments.turns {
        Some(turns) if !line.is_over_record() => {
            let tally = sweep(line, turns)?;
            Ok(writeln!(out, "{tally}"))
        }
        _ => {
            let told = line.call(&mut arguments)?;
            Ok(writeln!(out, "{told}"))
        }
    }
}

// A line as text: `?` stands for what is no ASCII, as no call has it. (So it is UTF-8: the error never comes.)
fn answer_bytes<W: Write>(out: &mut W, line: &[u8]) -> Result<io::Result<()>, LineError> {
    let mut characters = [b'?'; LONGEST];
    for (character, byte) in characters.iter_mut().zip(line) {
        if byte.is_ascii() {
            *character = *byte;
        }
    }
    let text = &characters[..line.len().min(LONGEST)];
    answer(out, str::from_utf8(text).map_err(|_| LineError::NoCall)?)
}

fn copy_line<W: Write>(out: &mut W, before: &[u8], line: &[u8]) -> io::Result<()> {
    out.write_all(before)?;
    out.write_all(line)?;
    out.write_all(b"\n")
}

fn answer_line<W: Write>(out: &mut W, line: &[u8]) -> io::Result<()> {
    if LONGEST < line.len() {
        return out.write_all(b"? a line that is too long\n");
    }
    if line.starts_with(b"//") {
        return copy_line(out, b"", line);
    }
    match answer_bytes(out, line) {
        Ok(written) => written,
        // (The second never comes: nothing here asks for memory.)
        Err(LineError::NoCall | LineError::OutOfMemory) => copy_line(out, b"? ", line),
    }
}

// More of a line, as far as there is room.
fn gather(line: &mut Buffer<KEPT>, part: &[u8]) {
    let room = KEPT - line.len();
    line.extend_from_slice(&part[..part.len().min(room)]);
}

// Answers each line that ends in a piece, as soon as it does.
fn answer_piece<W: Write>(out: &mut W, line: &mut Buffer<KEPT>, piece: &[u8]) -> io::Result<()> {
    for part in piece.split_inclusive(|byte| *byte == b'\n') {
        let Some(end) = part.strip_suffix(b"\n") else {
            gather(line, part);
            continue;
        };
        gather(line, end);
        answer_line(out, line.as_slice())?;
        out.flush()?;
        line.clear();
    }
    Ok(())
}

// Nothing says that an input ends, so its pieces are counted. What no LF ends is no line. A read that a signal broke off is made again.
fn answer_all<R: Read, W: Write>(input: &mut R, out: &mut W) -> io::Result<()> {
    let mut line = Buffer::new();
    let mut piece = [0; 65536];
    for _ in 0..u64::MAX {
        match input.read(&mut piece) {
            Ok(0) => break,
            Ok(count) => answer_piece(out, &mut line, &piece[..count])?,
            Err(error) if error.kind() == io::ErrorKind::Interrupted => {}
            Err(error) => return Err(error),
        }
    }
    Ok(())
}

// Nothing is taken from the heap, so that no line is too long for memory.
fn main(rt: HostRuntime) -> io::Result<()> {
    answer_all(&mut rt.reader(), &mut Page::new(io::writer(&rt)))
}
