// SipHash-2-4 (Aumasson and Bernstein, "SipHash: a fast short-input PRF") of a message of any length.
#![tactic(auto)]

ghost use Rattle.std.specs.Prelude.{◌≡◌, ◌++◌};
ghost use Rattle.octets.specs.Numbers.{le_bytes};
ghost use Rattle.siphash.specs.SipHash.{sip_round, initialized, compressed, last_word, finalized, sip_hash24, sip_hash24_bytes, key_of};

use secret::Secret;

// The four words of the internal state.
#[derive(Clone, Copy)]
struct State {
    v0: u64,
    v1: u64,
    v2: u64,
    v3: u64,
}

fn round(s: State) -> State
    ensures { result ≡ sip_round s }
{
    let a0 = s.v0.wrapping_add(s.v1);
    let a2 = s.v2.wrapping_add(s.v3);
    let a1 = s.v1.rotate_left(13) ^ a0;
    let a3 = s.v3.rotate_left(16) ^ a2;
    let b0 = a0.rotate_left(32);
    let b2 = a2.wrapping_add(a1);
    let c0 = b0.wrapping_add(a3);
    let b1 = a1.rotate_left(17) ^ b2;
    let b3 = a3.rotate_left(21) ^ c0;
    let c2 = b2.rotate_left(32);
    State {
        v0: c0,
        v1: b1,
        v2: c2,
        v3: b3,
    }
}

#[tactic(auto, unfolding(crate::specs::SipHash::initialized))]
fn initialize(key: Secret) -> State
    ensures { result ≡ initialized key }
{
    State {
        v0: key.k0 ^ 0x736f6d6570736575,
        v1: key.k1 ^ 0x646f72616e646f6d,
        v2: key.k0 ^ 0x6c7967656e657261,
        v3: key.k1 ^ 0x7465646279746573,
    }
}

#[tactic(auto, unfolding(crate::specs::SipHash::compressed, crate::specs::SipHash::rounds))]
fn compress(s: State, word: u64) -> State
    ensures { result ≡ compressed s word }
{
    let v3 = s.v3 ^ word;
    let r = round(round(State { v3, ..s }));
    let v0 = r.v0 ^ word;
    State { v0, ..r }
}

#[tactic(auto, unfolding(crate::specs::SipHash::finalized, crate::specs::SipHash::rounds))]
fn finalize(s: State) -> u64
    ensures { result ≡ finalized s }
{
    let v2 = s.v2 ^ 255;
    let r = round(round(round(round(State { v2, ..s }))));
    r.v0 ^ r.v1 ^ (r.v2 ^ r.v3)
}

// The bytes past the last whole word, at most seven, with the length modulo 256 on top.
fn last_word(message: &[u8]) -> u64
    ensures { result ≡ last_word message.now }
{
    let mut bytes = octets::bytes_at(message, message.len() / 8 * 8);
    bytes[7] = (message.len() % 256) as u8;
    octets::le64(bytes)
}

// The hash of a message under a key, as a number.
pub fn siphash24(key: Secret, message: &[u8]) -> u64
    ensures { result ≡ sip_hash24 key message.now }
{
    let (words, _) = message.as_chunks::<8>();
    let mut s = initialize(key);
    for word in words {
        s = compress(s, octets::le64(*word));
    }
    finalize(compress(s, last_word(message)))
}

// The same as its eight bytes, the lowest first, as a cookie holds them.
#[tactic(auto, unfolding(crate::specs::SipHash::sip_hash24_bytes))]
pub fn siphash24_bytes(key: Secret, message: &[u8]) -> [u8; 8]
    ensures { result ≡ sip_hash24_bytes key message.now }
{
    octets::le64_bytes(siphash24(key, message))
}

// The hash of a message of 20 bytes, two words and four bytes as a number. The key is its two words: where this has several callers it
// is not laid into them, and a struct would go through memory.
pub fn siphash24_20(k0: u64, k1: u64, w0: u64, w1: u64, last: u32) -> u64
    ensures { result ≡ sip_hash24 (key_of k0 k1) (le_bytes 8 w0 ++ (le_bytes 8 w1 ++ le_bytes 4 last)) }
{
    let s = compress(compress(initialize(Secret { k0, k1 }), w0), w1);
    finalize(compress(s, last as u64 + 0x1400000000000000))
}

// The hash of a message of 32 bytes, four words. It isn't one function with the other: they differ in the last word too, and a loop over
// an array of words would be no plainer than these two lines.
pub fn siphash24_32(k0: u64, k1: u64, w0: u64, w1: u64, w2: u64, w3: u64) -> u64
    ensures { result ≡ sip_hash24 (key_of k0 k1) (le_bytes 8 w0 ++ (le_bytes 8 w1 ++ (le_bytes 8 w2 ++ le_bytes 8 w3))) }
{
    let s = compress(compress(initialize(Secret { k0, k1 }), w0), w1);
    finalize(compress(compress(compress(s, w2), w3), 0x2000000000000000))
}
