// What the programs print, by way of a writer that the caller lends.
ghost use Rattle.std.specs.Prelude.{◌≡◌, ◌≤◌, ◌++◌, take, OnOk, IfSome};
ghost use Rattle.std.specs.Io.KnownBytes.{Appends};

use crate::hex;
use std::fmt::Write as _;
use std::io::Write;
use std::{fmt, io};

// Messages of up to so many bytes are printed again.
const SHOWN: usize = 512;

// Room for the words behind a line: those of a good verdict and its reply are at most 45 bytes. The clause `fits`
// has the number too.
const WORDS: usize = 64;

// Words that are put together: the first `len` of the bytes.
#[derive(Drop)]
struct Words {
    bytes: [u8; WORDS],
    len: usize,
    ghost fits: { len ≤ 64 },
}

impl fmt::Write for Words {
    ghost write_str_gives = { λ before text after. take after.len after.bytes ≡ take before.len before.bytes ++ text };

    fn write_str(&mut self, text: &str) -> fmt::Result {
        if !octets::put(&mut self.bytes, self.len, text.as_bytes()) {
            return Err(fmt::Error);
        }
        self.len += text.len();
        Ok(())
    }
}

// Writes words that are printed in pieces at once: a write for each piece takes longer than all the rest of a line.
// Words that have no room here are written piece by piece.
pub fn say_words<W: Write, D: fmt::Display>(out: &mut W, words: &D) -> io::Result<()>
    ensures { OnOk result (IfSome (D.output words.now) (Appends (W.contents out.old) (W.contents out.new))) }
{
    let mut text = Words {
        bytes: [0; WORDS],
        len: 0,
    };
    match write!(text, "{words}") {
        Ok(()) => out.write_all(&text.bytes[..text.len]),
        Err(_) => write!(out, "{words}"),
    }
}

// The text of a message again, or how many bytes the message has.
pub fn say_message(out: &mut impl Write, text: &[u8], count: usize) -> io::Result<()> {
    if count <= SHOWN {
        return out.write_all(text);
    }
    write!(out, "({count} bytes)")
}

// Bytes in hexadecimal, `-` for none, in pieces of 256 bytes.
fn say_bytes(out: &mut impl Write, bytes: &[u8]) -> io::Result<()> {
    if bytes.is_empty() {
        return out.write_all(b"-");
    }
    for piece in bytes.chunks(256) {
        let mut room = [0; 512];
        out.write_all(hex::encode(piece, &mut room))?;
    }
    Ok(())
}

// A space, bytes in hexadecimal and the line's end.
pub fn say_last(out: &mut impl Write, bytes: &[u8]) -> io::Result<()> {
    out.write_all(b" ")?;
    say_bytes(out, bytes)?;
    out.write_all(b"\n")
}
