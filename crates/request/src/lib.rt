// A request read (RFC 1035, RFC 6891, RFC 7873): document 01's checks 3 to 10 in their order, and the body of the first COOKIE option.
// Takes every message, and copies nothing of it.
#![tactic(auto)]

mod checks;
mod refusals;

pub use checks::{check_head, cookie_body, read};
use edns::Cookie;

// Why a request is refused: document 01's refusals, each with its number.
#[derive(Clone, Copy, Debug, PartialEq, Eq)]
pub enum Refusal {
    // Under 12 or over 65,535 bytes.
    Size = 3,
    // QR is 1.
    Response = 4,
    // QDCOUNT above 1.
    Questions = 5,
    // A malformed name, a part past the end, bytes left over.
    Malformed = 6,
    // An OPT misplaced, its owner not the root, or a second OPT.
    WrongOpt = 7,
    // An EDNS version other than 0.
    Version = 8,
    // An option past the OPT data.
    OptionPast = 9,
    // A first COOKIE body of an illegal length.
    CookieLength = 10,
}

// What is read of a request.
#[derive(Clone, Copy, Debug, PartialEq, Eq)]
pub struct Reading {
    // Told because the reply depends on it.
    pub qdcount: u16,
    // Where the body of the first COOKIE option lies in the message; none if there is no OPT, or no COOKIE option in it.
    pub cookie: Option<Cookie>,
}
