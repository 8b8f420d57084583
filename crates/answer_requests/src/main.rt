// Answers requests from standard input, one to a line, and prints each line again with what came of it.
//
//     MODE GENERATING OTHER CLOCK ADDRESS OUTPUT MESSAGE
//
// MODE is disabled, enabled or enforced, GENERATING a secret of 16 bytes, OTHER another or `-`, CLOCK 4 bytes,
// ADDRESS the client's, of up to 64 bytes, OUTPUT what the buffer holds that is lent for the reply's option, up to
// 65,535 bytes, and MESSAGE the request. Bytes are in hexadecimal, and `-` is none; numbers are big-endian. Behind
// the line stands one of
//
//     refused NUMBER OWED AFTERWARDS      refused, by document 01's number, 1 to 10. OWED is what the sender is owed:
//                                         nothing, formerr or badvers; or caller, where the fault is the caller's
//     VERDICT ACTION OPTION AFTERWARDS    the verdict on its cookie (a good one with its age and which secret
//                                         matched), what the reply is (serve, badcookie, truncate) and the option in
//                                         it (none, fresh, kept)
//
// AFTERWARDS is the whole of the lent buffer then, in hexadecimal, and `-` if it has no bytes. A message of more than
// 512 bytes is not printed again, but its size, as `(65535 bytes)`. A comment, `# ..`, is printed as it is, and so is
// an empty line.
// Any other line is answered by `bad line` and its number; a line of more than 262,143 bytes by `long line` and its
// number, and nothing after it is read.
#![tactic(auto)]

use lines::fields::ServerSetting;
use lines::reader::Answers;
use lines::{fields, hex, output, reader, text};
use server::{Answered, ErrorReply, Refusal};
use std::io;
use std::io::Write;

// The number of the message's field, which is the last.
const MESSAGE: usize = 6;

// The words for what is owed are this program's alone.
fn say_refusal(out: &mut impl Write, refusal: Refusal) -> io::Result<()> {
    let owed = match server::error_reply(refusal) {
        ErrorReply::CallersFault => "caller",
        ErrorReply::Nothing => "nothing",
        ErrorReply::FormErr => "formerr",
        ErrorReply::BadVers => "badvers",
    };
    output::say_words(out, &format_args!(" refused {} {owed}", u8::from(refusal)))
}

fn say_response(out: &mut impl Write, response: Result<Answered, Refusal>) -> io::Result<()> {
    match response {
        Ok(Answered { verdict, reply }) => output::say_words(
            out,
            &format_args!(" {verdict} {reply}"),
        ),
        Err(refusal) => say_refusal(out, refusal),
    }
}

// The line again, with the size of a long message in its place.
fn say_request(out: &mut impl Write, line: &[u8], count: usize) -> io::Result<()> {
    let (head, message) = line.split_at(text::field_start(line, MESSAGE));
    out.write_all(head)?;
    output::say_message(out, message, count)
}

// The line, what came of it, and the lent buffer afterwards.
fn answer(
    out: &mut impl Write,
    line: &[u8],
    count: usize,
    response: Result<Answered, Refusal>,
    lent: &[u8],
) -> io::Result<()> {
    say_request(out, line, count)?;
    say_response(out, response)?;
    output::say_last(out, lent)
}

// Answers one line, if it is well written.
fn run_line(
    out: &mut impl Write,
    line: &[u8],
    bytes: &mut [u8],
    lent: &mut [u8],
) -> Option<io::Result<()>> {
    if text::fields(line) != MESSAGE + 1 {
        return None;
    }
    let ServerSetting {
        mode,
        secrets,
        clock,
    } = fields::setting(
        text::field(line, 0),
        text::field(line, 1),
        text::field(line, 2),
        text::field(line, 3),
    )?;
    let mut room = [0; 64];
    let address = hex::decode(text::field(line, 4), &mut room)?;
    let lent = hex::decode_part(text::field(line, 5), lent)?;
    let message = hex::decode(text::field(line, MESSAGE), bytes)?;
    let response = server::respond(mode, secrets, clock, address, message, lent);
    Some(answer(out, line, message.len(), response, lent))
}

// Room for a message, and for the buffer that is lent.
#[derive(Drop)]
struct Server<'a> {
    bytes: &'a mut [u8],
    lent: &'a mut [u8],
}

impl<W: Write> Answers<W> for Server<'_> {
    fn answer(&mut self, out: &mut W, line: &[u8]) -> Option<io::Result<()>> {
        run_line(out, line, self.bytes, self.lent)
    }
}

fn main(rt: HostRuntime) -> io::Result<()> {
    let mut buffer = [0; 262144];
    let mut bytes = [0; 131072];
    let mut lent = [0; 65535];
    reader::each(
        &mut rt.stdin(),
        &mut rt.stdout(),
        &mut buffer,
        &mut Server {
            bytes: &mut bytes,
            lent: &mut lent,
        },
    )
}
