// The COOKIE option of a request found: a call of the library for C. Its crate is its own, so that dnscookie_find_c exports it alone.
#![tactic(auto)]

ghost use Rattle.std.specs.Prelude.{◌≡◌, ◌≤◌};
ghost use Rattle.request.specs.Request.{cookie};
ghost use Rattle.dnscookie_find.specs.Find.{found_word, find_call};

use edns::Cookie;

fn place_word(qdcount: u16, place: Cookie) -> u64
    requires { (place.start ≤ 65535) × (place.end ≤ 65535) }
    ensures { result ≡ found_word (cookie qdcount place.start place.end) }
{
    qdcount as u64 * 0x100 + place.start as u64 * 0x10000 + place.end as u64 * 0x100000000
}

// Reads a request outside mode Disabled. 201 is the header's number for no COOKIE option.
pub fn dnscookie_find(message: &[u8]) -> u64
    ensures { result ≡ find_call message.now }
{
    match request::read(message) {
        Err(refusal) => u8::from(refusal) as u64,
        Ok(reading) => match reading.cookie {
            None => 201 + reading.qdcount as u64 * 0x100,
            Some(place) => place_word(reading.qdcount, place),
        },
    }
}
