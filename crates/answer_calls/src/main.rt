// Answers calls on one ledger from standard input, one to a line, and prints each line again with what came of it.
//
//     step KIND MEMBER TIME SECRET                a record offered to the ledger, its spare bytes 0
//     record BYTES                                the same, any record as its 32 bytes
//     making MEMBER TIME CLIENT ADDRESS OUTPUT    a member makes a fresh COOKIE option for the client cookie CLIENT,
//                                                 8 bytes, at the front of a lent buffer that holds OUTPUT
//     checking MEMBER MODE TIME ADDRESS BODY      a member in mode MODE (disabled, enabled or enforced) checks a
//                                                 COOKIE body
//     # ..                                        a comment, printed as it is, and so is an empty line
//
// KIND, MEMBER and TIME are decimal numbers, up to 255, 255 and 18446744073709551615. Bytes are in hexadecimal, and
// `-` is none. SECRET has 16 bytes, ADDRESS, the client's, up to 64, OUTPUT and BODY up to 65,535.
// Behind the line stands
//
//     accepted           of a step; or `refused` and the number of the ledger's refusal, 1 to 10
//     made AFTERWARDS    of a making; or `refused`, a number of the request table (1, 2) and AFTERWARDS; or `nosecrets`
//                        and AFTERWARDS: the ledger gives that member none
//     VERDICT            of a checking, a good one with its age and which secret matched; or `refused` and a number of
//                        the request table (2, 10); or `nosecrets`
//
// AFTERWARDS is the whole of the lent buffer then, in hexadecimal, and `-` if it has no bytes. The ledger is fresh
// before the first line, and each line gets it as the one before left it.
// Any other line is answered by `bad line` and its number; a line of more than 262,143 bytes by `long line` and its
// number, and nothing after it is read.
#![tactic(auto)]

mod cookies;
mod steps;

use ledger::Ledger;
use lines::reader::Answers;
use lines::{reader, text};
use std::io;
use std::io::Write;

// Answers one line, if it is well written.
fn run_line(out: &mut impl Write, line: &[u8], ledger: &mut Ledger) -> Option<io::Result<()>> {
    match (text::field(line, 0), text::fields(line)) {
        (b"step", 5) => steps::step_line(out, line, ledger),
        (b"record", 2) => steps::record_line(out, line, ledger),
        (b"making", 6) => cookies::making_line(out, line, *ledger),
        (b"checking", 6) => cookies::checking_line(out, line, *ledger),
        _ => None,
    }
}

// The one ledger.
#[derive(Drop)]
struct Fleet {
    ledger: Ledger,
}

impl<W: Write> Answers<W> for Fleet {
    fn answer(&mut self, out: &mut W, line: &[u8]) -> Option<io::Result<()>> {
        run_line(out, line, &mut self.ledger)
    }
}

fn main(rt: HostRuntime) -> io::Result<()> {
    let mut buffer = [0; 262144];
    reader::each(
        &mut rt.stdin(),
        &mut rt.stdout(),
        &mut buffer,
        &mut Fleet {
            ledger: fleet::fresh(),
        },
    )
}
