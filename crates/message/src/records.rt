// Questions and records.
ghost use Rattle.std.specs.Prelude.{◌≡◌};
ghost use Rattle.message.specs.Record.{question_end, record_at};
ghost use Rattle.message.specs.Answers.{end_of, found_of};

use crate::Record;

// Where the question at a place ends.
pub fn question_end(message: &[u8], at: usize) -> Option<usize>
    ensures { end_of result ≡ question_end message.now at }
{
    let end = crate::name_end(message, at)?;
    let stop = end + 4;
    if message.len() < stop {
        return None;
    }
    Some(stop)
}

// The record at a place. Its data stands behind RDLENGTH, and this behind the 8 bytes of TYPE, CLASS and TTL.
#[tactic(auto, using(octets::proofs::ReadLaws::part_begins))]
pub fn record_at(message: &[u8], at: usize) -> Option<Record>
    ensures { found_of result ≡ record_at message.now at }
{
    let end = crate::name_end(message, at)?;
    let stop = octets::part_end(message, end, 8)?;
    Some(Record {
        root: message[at] == 0,
        kind: octets::be16([message[end], message[end + 1]]),
        version: message[end + 5],
        start: end + 10,
        end: stop,
    })
}
