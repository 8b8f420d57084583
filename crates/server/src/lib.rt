// A request answered (RFC 7873, RFC 9018): what a name server calls for each datagram that comes. Document 01's checks 1 to 10, the
// verdict on the cookie, the reply that it owes, and the reply's COOKIE option written into a lent buffer. Mode, secrets, clock and
// address are arguments, and nothing is read but what is lent.
#![tactic(auto)]

mod refusals;
mod responses;

pub use refusals::error_reply;
pub use responses::respond;
use verdict::{Reply, Verdict};

// Why a request is refused: document 01's refusals 1 to 10.
#[derive(Clone, Copy, Debug, PartialEq, Eq)]
pub enum Refusal {
    // 1: an output of less than 28 bytes.
    Output,
    // 2: a client address that is not 4 or 16 bytes.
    Address,
    // 3 to 10: the message.
    Request(request::Refusal),
}

// What is owed to whoever sent a request that is refused.
#[derive(Clone, Copy, Debug, PartialEq, Eq)]
pub enum ErrorReply {
    // The caller's fault, refusals 1 and 2: no fault of the request's.
    CallersFault,
    // No reply at all.
    Nothing,
    // A reply with RCODE 1.
    FormErr,
    // A reply with RCODE 16.
    BadVers,
}

// What comes of a request that no check refuses.
#[derive(Clone, Copy, Debug, PartialEq, Eq)]
pub struct Answered {
    pub verdict: Verdict,
    // What the reply is, and which COOKIE option it carries: that of 28 bytes which the output now starts with, or none.
    pub reply: Reply,
}
