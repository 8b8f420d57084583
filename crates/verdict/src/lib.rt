// What a verdict on a DNS cookie is (document 01, "The verdict"), by its age, and the reply that it owes.
#![tactic(auto)]

mod reply_table;
mod serial;
mod words;

pub use reply_table::{is_disabled, reply_for};
pub use serial::{by_time, serial_age};

// How a member treats cookies.
#[derive(Clone, Copy, Debug, PartialEq, Eq)]
pub enum Mode {
    Disabled,
    Enabled,
    Enforced,
}

// Why a server cookie is bad: the first step that fails.
#[derive(Clone, Copy, Debug, PartialEq, Eq)]
pub enum Reason {
    Method,
    Hash,
    Time,
}

// Which of the secrets that are held gave a good cookie its hash.
#[derive(Clone, Copy, Debug, PartialEq, Eq)]
pub enum Which {
    Generating,
    Other,
}

#[derive(Clone, Copy, Debug, PartialEq, Eq)]
pub enum Verdict {
    // In mode Disabled.
    Ignored,
    // No OPT record, or no COOKIE option in it.
    Absent,
    ClientOnly,
    Bad(Reason),
    // The age in seconds, negative for a timestamp that is ahead of the clock.
    Good { age: i32, secret: Which },
}

// What the reply is.
#[derive(Clone, Copy, Debug, PartialEq, Eq)]
pub enum Action {
    Serve,
    BadCookie,
    Truncate,
}

// What COOKIE option the reply carries.
#[derive(Clone, Copy, Debug, PartialEq, Eq)]
pub enum Carried {
    Nothing,
    Fresh,
    Kept,
}

#[derive(Clone, Copy, Debug, PartialEq, Eq)]
pub struct Reply {
    pub action: Action,
    pub option: Carried,
}
