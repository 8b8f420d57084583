// The checks of a request, and what is found where none refuses.
ghost use Rattle.std.specs.Prelude.{◌≡◌, ◌+◌, ◌≤◌, length};
ghost use Rattle.octets.specs.Refusals.{first};
ghost use Rattle.request.specs.Answers.{head_number, answer_of};
ghost use Rattle.request.specs.Request.{head_checks, request, cookie_body};
ghost use Rattle.request.specs.Rest.{after_cookie, after_opt, after_head};

use crate::{Reading, Refusal};
use edns::Cookie;
use message::Record;

// Check 10, and where the first COOKIE body lies in the message.
fn read_cookie(qdcount: u16, base: usize, cookie: Cookie) -> Result<Reading, Refusal>
    requires { (cookie.start ≤ cookie.end) × (base + cookie.end ≤ 65535) }
    ensures { answer_of result ≡ after_cookie qdcount base cookie.start cookie.end }
{
    if !edns::is_cookie_length(cookie.end - cookie.start) {
        return Err(Refusal::CookieLength);
    }
    let in_message = Cookie {
        start: base + cookie.start,
        end: base + cookie.end,
    };
    Ok(Reading {
        qdcount,
        cookie: Some(in_message),
    })
}

// Checks 8 to 10.
fn read_opt(message: &[u8], qdcount: u16, opt: Record) -> Result<Reading, Refusal>
    requires { (opt.start ≤ opt.end) × (opt.end ≤ length message.now) × (length message.now ≤ 65535) }
    ensures { answer_of result ≡ after_opt message.now qdcount opt }
{
    if opt.version != 0 {
        return Err(Refusal::Version);
    }
    let start = opt.start;
    let end = opt.end;
    match edns::walk(&message[start..end])? {
        None => Ok(Reading {
            qdcount,
            cookie: None,
        }),
        Some(cookie) => read_cookie(qdcount, start, cookie),
    }
}

// Checks 5 to 10.
fn read_rest(message: &[u8]) -> Result<Reading, Refusal>
    requires { (12 ≤ length message.now) × (length message.now ≤ 65535) }
    ensures { answer_of result ≡ after_head message.now }
{
    let qdcount = octets::be16([message[4], message[5]]);
    if 1 < qdcount {
        return Err(Refusal::Questions);
    }
    match message::walk(message)? {
        None => Ok(Reading {
            qdcount,
            cookie: None,
        }),
        Some(opt) => read_opt(message, qdcount, opt),
    }
}

// Checks 3 and 4: all that mode Disabled asks of a message.
pub fn check_head(message: &[u8]) -> Result<(), Refusal>
    ensures { head_number result ≡ first (head_checks message.now) }
{
    if !(12..=65535).contains(&message.len()) {
        return Err(Refusal::Size);
    }
    if 128 <= message[2] {
        return Err(Refusal::Response);
    }
    Ok(())
}

// Reads a request outside mode Disabled: checks 3 to 10.
pub fn read(message: &[u8]) -> Result<Reading, Refusal>
    ensures { answer_of result ≡ request message.now }
{
    check_head(message)?;
    read_rest(message)
}

// The body of the first COOKIE option, as a part of the message; an empty part if there is none or a check refuses.
pub fn cookie_body(message: &[u8]) -> &[u8]
    ensures { result.now ≡ cookie_body message.now }
{
    let Ok(reading) = read(message) else {
        return &message[..0];
    };
    match reading.cookie {
        None => &message[..0],
        Some(cookie) => &message[cookie.start..cookie.end],
    }
}
