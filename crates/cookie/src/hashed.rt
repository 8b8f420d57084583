// What a server cookie's hash is of.
ghost use Rattle.std.specs.Prelude.{◌≡◌, option_map};
ghost use Rattle.octets.specs.Numbers.{le_bytes};
ghost use Rattle.siphash.specs.SipHash.{sip_hash24};
ghost use Rattle.cookie.specs.Hashed.{address_bytes, address_in, hashed_bytes, hashed_in};
ghost use Rattle.cookie.specs.Match.{match_of};
ghost use Rattle.cookie.specs.ServerCookie.{sip_hash_method, matches, matching};

use secret::{Secret, Secrets};
use verdict::Which;

// A client's address of 4 or of 16 bytes, as words, the lowest byte first.
#[derive(Clone, Copy, Debug, PartialEq, Eq)]
pub enum Address {
    V4(u32),
    V6(u64, u64),
}

impl Address {
    // The address that 4 or 16 bytes are, and none for any other length: an Option and no `TryFrom`, since each crate that asks has a
    // refusal of its own for it.
    #[tactic(auto, using(crate::proofs::MessageLaws::read_4, crate::proofs::MessageLaws::read_16, crate::proofs::MessageLaws::read_neither))]
    pub fn read(bytes: &[u8]) -> Option<Address>
        ensures { option_map address_bytes result ≡ address_in bytes.now }
    {
        match bytes.len() {
            4 => Some(Address::V4(octets::le32(octets::bytes_at(bytes, 0)))),
            16 => Some(Address::V6(crate::word(bytes, 0), crate::word(bytes, 8))),
            _ => None,
        }
    }
}

// The client cookie and bytes 0 to 7 of the server cookie as words, and the client's address. They are never laid into
// a buffer: bytes that are stored and loaded again as words cost more than the hash's rounds. What judges by them is
// marked to be inlined, since a verdict that one function makes and another reads goes through memory.
#[derive(Clone, Copy, Debug, PartialEq, Eq)]
pub struct Hashed {
    pub client: u64,
    pub front: u64,
    pub address: Address,
}

impl Hashed {
    // What 20 or 32 bytes are, read as such; none for any other length.
    #[tactic(auto, using(crate::proofs::MessageLaws::hashed_short, crate::proofs::MessageLaws::hashed_other, crate::proofs::MessageLaws::hashed_read))]
    pub fn read(message: &[u8]) -> Option<Hashed>
        ensures { option_map hashed_bytes result ≡ hashed_in message.now }
    {
        let (cookies, address) = message.split_first_chunk::<16>()?;
        let address = Address::read(address)?;
        Some(Hashed {
            client: crate::word(cookies, 0),
            front: crate::word(cookies, 8),
            address,
        })
    }

    // The hash under a secret.
    #[inline(always)]
    pub fn hash(self, secret: Secret) -> u64
        ensures { result ≡ sip_hash24 secret (hashed_bytes self) }
    {
        let Secret { k0, k1 } = secret;
        let Hashed {
            client,
            front,
            address,
        } = self;
        match address {
            Address::V4(last) => siphash::siphash24_20(k0, k1, client, front, last),
            Address::V6(low, high) => siphash::siphash24_32(k0, k1, client, front, low, high),
        }
    }

    // Step 2 for one secret: whether this is the hash under it.
    #[tactic(auto, using(crate::proofs::ServerLaws::hash_is))]
    #[inline(always)]
    pub fn matches(self, secret: Secret, hash: u64) -> bool
        ensures { result ≡ matches sip_hash_method (hashed_bytes self) (le_bytes 8 hash) secret }
    {
        self.hash(secret) == hash
    }

    // Step 2: the generating secret first, and the other only where that one does not match.
    #[tactic(auto, using(crate::proofs::ServerLaws::match_generating, crate::proofs::ServerLaws::match_none, crate::proofs::ServerLaws::match_other, crate::proofs::ServerLaws::match_neither))]
    #[inline(always)]
    pub(crate) fn matching(self, secrets: Secrets, hash: u64) -> Option<Which>
        ensures { match_of result ≡ matching sip_hash_method (hashed_bytes self) (le_bytes 8 hash) secrets }
    {
        if self.matches(secrets.generating(), hash) {
            return Some(Which::Generating);
        }
        match secrets {
            Secrets::Two { other, .. } if self.matches(other, hash) => Some(Which::Other),
            _ => None,
        }
    }
}
