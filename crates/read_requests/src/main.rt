// Reads requests from standard input, one DNS message to a line in hexadecimal, and prints each again with its answer.
//
//     MESSAGE refused NUMBER -                   refused, by document 01's number, 3 to 10
//     MESSAGE none QDCOUNT -                     no COOKIE option
//     MESSAGE cookie QDCOUNT START END BODY      a COOKIE option: its body lies from START up to END in the message
//
// The last field is the part of the message that the finder hands back, in hexadecimal: `-`, none, is right for the
// first two. The other numbers are decimal. A line `-` is a message of no bytes. A message of more than 512 bytes is
// not printed again, but its size, as `(65535 bytes)`. A comment, `# ..`, is printed as it is, and so is an empty
// line.
// Any other line is answered by `bad line` and its number; a line of more than 262,143 bytes, which is a message of
// 131,072 or more, by `long line` and its number, and nothing after it is read.
#![tactic(auto)]

use lines::reader::Answers;
use lines::{hex, output, reader};
use request::Reading;
use std::io;
use std::io::Write;

fn say_reading(out: &mut impl Write, reading: Reading) -> io::Result<()> {
    let qdcount = reading.qdcount;
    match reading.cookie {
        None => write!(out, " none {qdcount}"),
        Some(cookie) => write!(out, " cookie {qdcount} {} {}", cookie.start, cookie.end),
    }
}

fn answer(out: &mut impl Write, line: &[u8], message: &[u8]) -> io::Result<()> {
    output::say_message(out, line, message.len())?;
    match request::read(message) {
        Ok(reading) => say_reading(out, reading),
        Err(refusal) => write!(out, " refused {}", u8::from(refusal)),
    }?;
    output::say_last(out, request::cookie_body(message))
}

// Room for a message.
#[derive(Drop)]
struct Requests<'a> {
    bytes: &'a mut [u8],
}

impl<W: Write> Answers<W> for Requests<'_> {
    fn answer(&mut self, out: &mut W, line: &[u8]) -> Option<io::Result<()>> {
        let message = hex::decode(line, self.bytes)?;
        Some(answer(out, line, message))
    }
}

fn main(rt: HostRuntime) -> io::Result<()> {
    let mut buffer = [0; 262144];
    let mut bytes = [0; 131072];
    reader::each(
        &mut rt.stdin(),
        &mut rt.stdout(),
        &mut buffer,
        &mut Requests { bytes: &mut bytes },
    )
}
