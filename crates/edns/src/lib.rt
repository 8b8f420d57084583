// The options in the data of an OPT record (RFC 6891), and the first COOKIE option among them (RFC 7873). Every public function
// takes any bytes and any place, and ends.
#![tactic(auto)]

mod options;

pub use options::{is_cookie_length, option_at, walk};

// An option: its code, and where its body lies in the data. The next option starts at the body's end. Places and no slices, here and in
// a message's record, since C and a request's reader are told places.
#[derive(Clone, Copy, Debug, PartialEq, Eq)]
pub struct EdnsOption {
    pub code: u16,
    pub start: usize,
    pub end: usize,
}

// Where the body of the first COOKIE option lies: in the data, or in the message that the data is a part of.
#[derive(Clone, Copy, Debug, PartialEq, Eq)]
pub struct Cookie {
    pub start: usize,
    pub end: usize,
}

// An option past the data: refusal 9.
#[derive(Clone, Copy, Debug, PartialEq, Eq)]
pub struct Past;
