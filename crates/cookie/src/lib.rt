// DNS server cookies (RFC 7873, RFC 9018): a COOKIE body judged, a COOKIE option made or kept, and read back. Clock, secrets and
// address are arguments, and nothing is read but what is lent.
#![tactic(auto)]

mod cookie_option;
mod hashed;
mod server_cookie;

ghost use Rattle.std.specs.Prelude.{◌≡◌, ◌+◌, ◌≤◌, length, take, drop};
ghost use Rattle.octets.specs.Numbers.{le_bytes};
ghost use Rattle.cookie.specs.ServerCookie.{is_address, refusal_number};

pub use cookie_option::{write_fresh, write_fresh_for, write_kept, written_body};
pub use hashed::{Address, Hashed};
pub use server_cookie::{Setting, judge};

// What can't be used: document 01's refusals 1, 2 and 10, and one of our own.
#[derive(Clone, Copy, Debug, PartialEq, Eq)]
pub enum Refusal {
    // An output of less than 28 bytes.
    Output = 1,
    // A client address that is not 4 or 16 bytes.
    Address = 2,
    // A COOKIE body of an illegal length.
    Body = 10,
    // A body to keep that is not 24 bytes, as every good one is. Document 01 has no number for it; 100 is ours.
    NotKept = 100,
}

// A refusal's number. Each crate that refuses has its own impl of the library's trait.
impl From<Refusal> for u8 {
    ghost from_gives = { λ refusal number. number ≡ refusal_number refusal };

    fn from(refusal: Refusal) -> u8 {
        refusal as u8
    }
}

// Whether an address is 4 or 16 bytes.
#[tactic(auto, unfolding(crate::specs::ServerCookie::is_address))]
pub fn is_address(address: &[u8]) -> bool
    ensures { result ≡ is_address address.now }
{
    matches!(address.len(), 4 | 16)
}

// The eight bytes from a place on as a word, the lowest first: `octets::word_at`, with the clause that the laws here cite.
#[tactic(auto, using(crate::proofs::MessageLaws::word_is))]
fn word(s: &[u8], at: usize) -> u64
    requires { at + 8 ≤ length s.now }
    ensures { le_bytes 8 result ≡ take 8 (drop at s.now) }
{
    octets::word_at(s, at)
}
