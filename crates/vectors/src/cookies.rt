// The verbs that run the crate `cookie`: judge, fresh, kept and body. Each answers one line.
use cookie::Refusal;
use lines::fields::ServerSetting;
use lines::{fields, hex, output, text};
use std::io;
use std::io::Write;
use verdict::{Mode, Verdict};

// The line, the verdict and the reply that it owes.
fn answer_found(
    out: &mut impl Write,
    line: &[u8],
    mode: Mode,
    qdcount: u16,
    verdict: Verdict,
    body: &[u8],
) -> io::Result<()> {
    out.write_all(line)?;
    let reply = verdict::reply_for(mode, qdcount, verdict, body);
    output::say_words(out, &format_args!(" {verdict} {reply}\n"))
}

// Judges a body and answers with the reply that is owed to it.
fn judge(
    out: &mut impl Write,
    line: &[u8],
    setting: ServerSetting,
    qdcount: u16,
    address: &[u8],
    body: &[u8],
) -> io::Result<()> {
    let mode = setting.mode;
    match cookie::judge(mode, setting.secrets, setting.clock, address, body) {
        Ok(verdict) => answer_found(out, line, mode, qdcount, verdict, body),
        Err(refusal) => {
            out.write_all(line)?;
            writeln!(out, " refused {}", u8::from(refusal))
        }
    }
}

// A request without a COOKIE option.
fn answer_without(out: &mut impl Write, line: &[u8], mode: Mode, qdcount: u16) -> io::Result<()> {
    let verdict = if verdict::is_disabled(mode) {
        Verdict::Ignored
    } else {
        Verdict::Absent
    };
    answer_found(out, line, mode, qdcount, verdict, b"")
}

// `judge MODE QDCOUNT GENERATING OTHER CLOCK ADDRESS BODY`
pub fn judge_line(out: &mut impl Write, line: &[u8], bytes: &mut [u8]) -> Option<io::Result<()>> {
    let setting = fields::setting(
        text::field(line, 1),
        text::field(line, 3),
        text::field(line, 4),
        text::field(line, 5),
    )?;
    let qdcount = fields::count(text::field(line, 2))?;
    let mut room = [0; 64];
    let address = hex::decode(text::field(line, 6), &mut room)?;
    let body = text::field(line, 7);
    if matches!(body, b"none") {
        return Some(answer_without(out, line, setting.mode, qdcount));
    }
    let body = hex::decode_part(body, bytes)?;
    Some(judge(out, line, setting, qdcount, address, body))
}

// The line, the refusal or 0, and the buffer afterwards.
fn answer_written(
    out: &mut impl Write,
    line: &[u8],
    written: Result<(), Refusal>,
    buffer: &[u8],
) -> io::Result<()> {
    out.write_all(line)?;
    let told = match written {
        Ok(()) => 0,
        Err(refusal) => u8::from(refusal),
    };
    write!(out, " {told}")?;
    output::say_last(out, buffer)
}

// `fresh OUTPUT SECRET CLOCK ADDRESS CLIENT`
pub fn fresh_line(out: &mut impl Write, line: &[u8], bytes: &mut [u8]) -> Option<io::Result<()>> {
    let buffer = hex::decode_part(text::field(line, 1), bytes)?;
    let secret = fields::secret(text::field(line, 2))?;
    let clock = fields::clock(text::field(line, 3))?;
    let mut room = [0; 64];
    let address = hex::decode(text::field(line, 4), &mut room)?;
    let client = hex::exact(text::field(line, 5))?;
    let written = cookie::write_fresh(buffer, secret, clock, address, &client);
    Some(answer_written(out, line, written, buffer))
}

// `kept OUTPUT BODY`
pub fn kept_line(out: &mut impl Write, line: &[u8], bytes: &mut [u8]) -> Option<io::Result<()>> {
    let buffer = hex::decode_part(text::field(line, 1), bytes)?;
    let mut room = [0; 64];
    let body = hex::decode(text::field(line, 2), &mut room)?;
    let written = cookie::write_kept(buffer, body);
    Some(answer_written(out, line, written, buffer))
}

// `body BUFFER`
pub fn body_line(out: &mut impl Write, line: &[u8], bytes: &mut [u8]) -> Option<io::Result<()>> {
    let buffer = hex::decode_part(text::field(line, 1), bytes)?;
    let body = cookie::written_body(buffer);
    Some(crate::say_bytes(out, line, body))
}
