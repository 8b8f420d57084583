// A whole message: its questions, its records, and which record is the OPT.
ghost use Rattle.std.specs.Prelude.{◌≡◌, ◌-◌, cond, false, None, Ok, Err};
ghost use Rattle.message.specs.declared.Fault.TheVariants.{WrongOpt};
ghost use Rattle.message.specs.Message.{questions_end, outline};
ghost use Rattle.message.specs.Scan.{is_wrong, scanned};
ghost use Rattle.message.specs.Answers.{end_of, outline_of};

use crate::{Fault, Record};

// Where so many questions from a place on end.
fn questions_end(message: &[u8], count: u16, from: usize) -> Option<usize>
    ensures { end_of result ≡ questions_end count message.now from }
{
    let mut at = from;
    for _ in 0..count {
        at = crate::question_end(message, at)?;
    }
    Some(at)
}

// Whether an OPT is wrong: not placed in the additional section, by its owner, or behind another.
fn is_wrong(opt: Option<Record>, placed: bool, next: Record) -> bool
    ensures { result ≡ is_wrong opt placed next }
{
    !placed || !next.root || opt.is_some()
}

// What is told of all records: the OPT or none, or check 7's fault.
fn told(opt: Option<Record>, wrong: bool) -> Result<Option<Record>, Fault>
    ensures { result ≡ cond wrong (Err WrongOpt) (Ok opt) }
{
    if wrong { Err(Fault::WrongOpt) } else { Ok(opt) }
}

// So many records from a place to the message's end, of which the last ones are the additional section's. The OPT so far and whether one
// was wrong are two locals: carried through the loop as the Result that they become they go through memory (find 0.96 for 0.83).
fn walk_records(
    message: &[u8],
    count: usize,
    additional: usize,
    from: usize,
) -> Result<Option<Record>, Fault>
    ensures { result ≡ scanned (count - additional) None false count message.now from }
{
    let mut at = from;
    let mut opt = None;
    let mut wrong = false;
    for behind in (0..count).rev() {
        let Some(next) = crate::record_at(message, at) else {
            return Err(Fault::Malformed);
        };
        if next.kind == 41 {
            wrong |= is_wrong(opt, behind < additional, next);
            opt = Some(next);
        }
        at = next.end;
    }
    if at != message.len() {
        return Err(Fault::Malformed);
    }
    told(opt, wrong)
}

// Walks a whole message: whether its questions and records are there and nothing else is, and which record is the OPT.
pub fn walk(message: &[u8]) -> Result<Option<Record>, Fault>
    ensures { outline_of result ≡ outline message.now }
{
    if message.len() < 12 {
        return Err(Fault::Malformed);
    }
    let questions = octets::be16([message[4], message[5]]);
    let answers = octets::be16([message[6], message[7]]) as usize;
    let authorities = octets::be16([message[8], message[9]]) as usize;
    let additional = octets::be16([message[10], message[11]]) as usize;
    let at = questions_end(message, questions, 12).ok_or(Fault::Malformed)?;
    walk_records(message, answers + authorities + additional, additional, at)
}
