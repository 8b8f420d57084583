// Steps: the lines step and record.
use ledger::Ledger;
use lines::{hex, text};
use std::io;
use std::io::Write;

// Offers a record to the ledger, and prints the line and what came of it.
fn offer(
    out: &mut impl Write,
    line: &[u8],
    ledger: &mut Ledger,
    bytes: &[u8; 32],
) -> io::Result<()> {
    let answer = fleet::step(ledger, bytes);
    out.write_all(line)?;
    match answer {
        Ok(()) => writeln!(out, " accepted"),
        Err(refusal) => writeln!(out, " refused {}", u8::from(refusal)),
    }
}

// `step KIND MEMBER TIME SECRET`
pub fn step_line(out: &mut impl Write, line: &[u8], ledger: &mut Ledger) -> Option<io::Result<()>> {
    let mut bytes = [0; 32];
    bytes[0] = decimal::byte(text::field(line, 1))?;
    bytes[1] = decimal::byte(text::field(line, 2))?;
    let time = decimal::number(text::field(line, 3))?;
    bytes[8..16].copy_from_slice(&time.to_be_bytes());
    let secret = hex::exact::<16>(text::field(line, 4))?;
    bytes[16..].copy_from_slice(&secret);
    Some(offer(out, line, ledger, &bytes))
}

// `record BYTES`
pub fn record_line(
    out: &mut impl Write,
    line: &[u8],
    ledger: &mut Ledger,
) -> Option<io::Result<()>> {
    let bytes = hex::exact(text::field(line, 1))?;
    Some(offer(out, line, ledger, &bytes))
}
