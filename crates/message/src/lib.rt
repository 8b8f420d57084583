// The DNS message (RFC 1035) up to its OPT record (RFC 6891): names, questions, records, and which record is the OPT. Every
// public function takes any bytes and any place, and ends. A pointer ends a name and is not followed, so that a walk only goes forward.
#![tactic(auto)]

mod names;
mod records;
mod sections;

pub use names::name_end;
pub use records::{question_end, record_at};
pub use sections::walk;

// What a record says.
#[derive(Clone, Copy, Debug, PartialEq, Eq)]
pub struct Record {
    // Its owner is the root: the single byte 0.
    pub root: bool,
    // Its TYPE.
    pub kind: u16,
    // The second byte of its TTL: an OPT record's EDNS version.
    pub version: u8,
    // Where its data lies, and so where the next record starts.
    pub start: usize,
    pub end: usize,
}

// What is wrong with a message.
#[derive(Clone, Copy, Debug, PartialEq, Eq)]
pub enum Fault {
    // Not of its questions and records alone: refusal 6.
    Malformed,
    // An OPT outside the additional section, one whose owner is not the root, or a second one: refusal 7.
    WrongOpt,
}
