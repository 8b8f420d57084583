// Runs the compiled code on vectors from standard input, one to a line, and prints each line again with its answer.
//
//     siphash24 KEY MESSAGE    SipHash-2-4 of MESSAGE under KEY, 16 bytes: the hash, as its eight bytes
//     judge MODE QDCOUNT GENERATING OTHER CLOCK ADDRESS BODY
//                              a request's COOKIE body, judged. MODE is disabled, enabled or enforced, QDCOUNT 2 bytes,
//                              GENERATING a secret of 16 bytes, OTHER another or `-`, CLOCK 4 bytes. A BODY `none` is a
//                              request without a COOKIE option, whose ADDRESS is not looked at. The answer is
//                              `refused` and document 01's number, or the verdict (a good one with its age and which
//                              secret matched), what the reply is (serve, badcookie, truncate) and the option in it
//                              (none, fresh, kept)
//     fresh OUTPUT SECRET CLOCK ADDRESS CLIENT
//                              a fresh COOKIE option for the client cookie CLIENT, 8 bytes, written into a buffer that
//                              held OUTPUT: the refusal, 0 for none, and the buffer afterwards
//     kept OUTPUT BODY         a COOKIE body written likewise, as it came
//     body BUFFER              the body of the COOKIE option that a buffer starts with
//     # ..                     a comment, printed as it is, and so is an empty line
//
// Bytes are in hexadecimal, and `-` is none; numbers are big-endian. OUTPUT, BUFFER and a BODY to judge have up to
// 65,535 bytes, ADDRESS and a BODY to keep up to 64.
// Any other line is answered by `bad line` and its number; a line of more than 262,143 bytes by `long line` and its
// number, and nothing after it is read.
#![tactic(auto)]

mod cookies;

use lines::reader::Answers;
use lines::{fields, hex, output, reader, text};
use std::io;
use std::io::Write;

// The line, and the bytes that answer it.
fn say_bytes(out: &mut impl Write, line: &[u8], bytes: &[u8]) -> io::Result<()> {
    out.write_all(line)?;
    output::say_last(out, bytes)
}

// `siphash24 KEY MESSAGE`
fn hash_line(out: &mut impl Write, line: &[u8], bytes: &mut [u8]) -> Option<io::Result<()>> {
    let key = fields::secret(text::field(line, 1))?;
    let message = hex::decode(text::field(line, 2), bytes)?;
    let hash = siphash::siphash24_bytes(key, message);
    Some(say_bytes(out, line, &hash))
}

// Answers one line, if it is well written.
fn run_line(out: &mut impl Write, line: &[u8], bytes: &mut [u8]) -> Option<io::Result<()>> {
    match text::field(line, 0) {
        b"siphash24" if text::fields(line) == 3 => hash_line(out, line, bytes),
        b"judge" if text::fields(line) == 8 => cookies::judge_line(out, line, bytes),
        b"fresh" if text::fields(line) == 6 => cookies::fresh_line(out, line, bytes),
        b"kept" if text::fields(line) == 3 => cookies::kept_line(out, line, bytes),
        b"body" if text::fields(line) == 2 => cookies::body_line(out, line, bytes),
        _ => None,
    }
}

// Room for a line's bytes.
#[derive(Drop)]
struct Vectors<'a> {
    bytes: &'a mut [u8],
}

impl<W: Write> Answers<W> for Vectors<'_> {
    fn answer(&mut self, out: &mut W, line: &[u8]) -> Option<io::Result<()>> {
        run_line(out, line, self.bytes)
    }
}

fn main(rt: HostRuntime) -> io::Result<()> {
    let mut buffer = [0; 262144];
    let mut bytes = [0; 131072];
    reader::each(
        &mut rt.stdin(),
        &mut rt.stdout(),
        &mut buffer,
        &mut Vectors { bytes: &mut bytes },
    )
}
