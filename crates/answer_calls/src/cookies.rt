// Cookies made and checked by members: the lines making and checking.
use fleet::Fault;
use ledger::Ledger;
use lines::{fields, hex, output, text};
use std::io;
use std::io::Write;
use verdict::Verdict;

// Why nothing is made or checked: the ledger gives no secrets, or document 01's number.
fn say_fault(out: &mut impl Write, fault: Fault) -> io::Result<()> {
    match fault {
        Fault::NoSecrets => write!(out, " nosecrets"),
        Fault::Refused(refusal) => write!(out, " refused {}", u8::from(refusal)),
    }
}

// Who is asked, when, and the client's address.
#[derive(Clone, Copy)]
struct Asked<'a> {
    member: u8,
    time: u64,
    address: &'a [u8],
}

fn read<'a>(line: &[u8], time_at: usize, room: &'a mut [u8]) -> Option<Asked<'a>> {
    Some(Asked {
        member: decimal::byte(text::field(line, 1))?,
        time: decimal::number(text::field(line, time_at))?,
        address: hex::decode(text::field(line, 4), room)?,
    })
}

// The line, what came of it, and the lent buffer afterwards.
fn answer_made(
    out: &mut impl Write,
    line: &[u8],
    made: Result<(), Fault>,
    lent: &[u8],
) -> io::Result<()> {
    out.write_all(line)?;
    match made {
        Ok(()) => write!(out, " made"),
        Err(fault) => say_fault(out, fault),
    }?;
    output::say_last(out, lent)
}

// `making MEMBER TIME CLIENT ADDRESS OUTPUT`
pub fn making_line(out: &mut impl Write, line: &[u8], ledger: Ledger) -> Option<io::Result<()>> {
    let mut room = [0; 64];
    let asked = read(line, 2, &mut room)?;
    let client = hex::exact(text::field(line, 3))?;
    let mut lent = [0; 65535];
    let lent = hex::decode_part(text::field(line, 5), &mut lent)?;
    let made = fleet::make(
        ledger,
        asked.member,
        asked.time,
        &client,
        asked.address,
        lent,
    );
    Some(answer_made(out, line, made, lent))
}

// The line, and what came of it.
fn answer_checked(
    out: &mut impl Write,
    line: &[u8],
    checked: Result<Verdict, Fault>,
) -> io::Result<()> {
    out.write_all(line)?;
    match checked {
        Ok(verdict) => output::say_words(out, &format_args!(" {verdict}")),
        Err(fault) => say_fault(out, fault),
    }?;
    writeln!(out)
}

// `checking MEMBER MODE TIME ADDRESS BODY`
pub fn checking_line(out: &mut impl Write, line: &[u8], ledger: Ledger) -> Option<io::Result<()>> {
    let mut room = [0; 64];
    let asked = read(line, 3, &mut room)?;
    let mode = fields::mode(text::field(line, 2))?;
    let mut bytes = [0; 65535];
    let body = hex::decode_part(text::field(line, 5), &mut bytes)?;
    let checked = fleet::check(ledger, asked.member, mode, asked.time, asked.address, body);
    Some(answer_checked(out, line, checked))
}
