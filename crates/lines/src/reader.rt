// An input in lines, by way of a buffer that the caller lends.
ghost use Rattle.std.specs.Prelude.{◌≡◌, ◌<◌, ◌≤◌, IfOk, IfSome, length};

use std::io;
use std::io::{ErrorKind, Read, Write};

// An input, and the buffer that it is read into. What is read already and not handed out yet lies from `next` up to
// `have`: places, since the buffer is lent once and filled again and again.
#[derive(Drop)]
struct Lines<'a, R> {
    input: &'a mut R,
    buffer: &'a mut [u8],
    next: usize,
    have: usize,
    // Whether the input goes on.
    more: bool,
    ghost in_order: { next ≤ have },
    ghost within: { have ≤ length buffer.now },
}

// What comes next.
enum Found<'a> {
    // A line, without its end.
    Line(&'a [u8]),
    // A line that does not fit into the buffer.
    Long,
    End,
}

impl<'a, R: Read> Lines<'a, R> {
    // The next line: out of what the buffer holds, or read.
    fn next(&mut self) -> io::Result<Found<'_>> {
        if !self.more {
            return Ok(Found::End);
        }
        let start = self.next;
        let have = self.have;
        if let Some(n) = line_end(&self.buffer[start..have]) {
            return Ok(self.line_to(start + n));
        }
        self.buffer.copy_within(start..have, 0);
        self.next = 0;
        self.have = have - start;
        self.read_line()
    }

    // Reads behind the start of a line, which stands at the buffer's front, until the line's end is there.
    fn read_line(&mut self) -> io::Result<Found<'_>> {
        while self.have < self.buffer.len() {
            let have = self.have;
            let count = read_some(self.input, &mut self.buffer[have..])?;
            if count == 0 {
                return Ok(self.last_line());
            }
            self.have = have + count;
            if let Some(n) = line_end(&self.buffer[have..have + count]) {
                return Ok(self.line_to(have + n));
            }
        }
        Ok(Found::Long)
    }

    // The line up to its end, which stands in what was read.
    fn line_to(&mut self, end: usize) -> Found<'_>
        requires behind { self.old.next ≤ end }
        requires read { end < self.old.have }
    {
        let start = self.next;
        self.next = end + 1;
        Found::Line(&self.buffer[start..end])
    }

    // What stands at the buffer's front when the input ends: a line that lacks its end, unless it is empty.
    fn last_line(&mut self) -> Found<'_> {
        self.more = false;
        match &self.buffer[..self.have] {
            [] => Found::End,
            line => Found::Line(line),
        }
    }
}

fn line_end(bytes: &[u8]) -> Option<usize>
    ensures { IfSome result (λ n. n < length bytes.now) }
{
    bytes.iter().position(|b| *b == b'\n')
}

// A program's answer to a line. It is a trait and no closure: a caller would have to show that a closure may be called.
pub trait Answers<W> {
    // Writes what came of a line; nothing where the line is badly written.
    fn answer(&mut self, out: &mut W, line: &[u8]) -> Option<io::Result<()>>;
}

// Answers each line of an input. A comment or an empty line is printed as it is; any other is handed to the program, and
// where that has no answer, the line is told to be bad, by its number, from 1. A line that does not fit into the buffer
// is told too, and is the last; so is one at which a read or a write fails.
// Nothing says that an input ends, and a proved loop has to: a u64 counts the lines. A writer and a line go together through a program's
// functions: two borrows, of which a struct would say nothing more.
pub fn each<R: Read, W: Write, A: Answers<W>>(
    input: &mut R,
    out: &mut W,
    buffer: &mut [u8],
    answers: &mut A,
) -> io::Result<()>
    ensures { length buffer.new ≡ length buffer.old }
{
    let mut lines = Lines {
        input,
        buffer,
        next: 0,
        have: 0,
        more: true,
    };
    for number in 1..=u64::MAX {
        match lines.next()? {
            Found::Line(line) if is_comment(line) => {
                out.write_all(line)?;
                writeln!(out)?;
            }
            Found::Line(line) => match answers.answer(out, line) {
                Some(answered) => answered?,
                None => writeln!(out, "bad line {number}")?,
            },
            Found::Long => return writeln!(out, "long line {number}"),
            Found::End => return Ok(()),
        }
    }
    Ok(())
}

// A comment or an empty line.
fn is_comment(line: &[u8]) -> bool {
    matches!(line, [] | [b'#', ..])
}

// One read, made again where a signal interrupted it, at most as often as a u64 counts. 0 bytes are the end of the
// input, where there is room.
pub fn read_some(input: &mut impl Read, room: &mut [u8]) -> io::Result<usize>
    ensures { IfOk result (λ n. n ≤ length room.new) }
{
    for _ in 0..u64::MAX {
        match input.read(room) {
            Err(error) if error.kind() == ErrorKind::Interrupted => {}
            got => return got,
        }
    }
    input.read(room)
}
