// Cookies made and judged, and the hash that they stand on.
ghost use Rattle.std.specs.Prelude.{◌≡◌};
ghost use Rattle.siphash.specs.SipHash.{sip_hash24};
ghost use Rattle.dnscookie.specs.Calls.{◌leaving◌, make_call, hash_call, judge_call};

use crate::arguments::Fault;
use crate::{arguments, words};
use cookie::Hashed;
use secret::Secret;

// C's answers are numbers, 0 for done: so what is refused is turned into one by `match`, here and in the other files, where a Result
// would take `?`.

// Writes a fresh option under the generating secret to the front of the output.
#[tactic(auto, unfolding(crate::specs::Calls::make_call, crate::specs::Calls::maker_refusal))]
pub fn dnscookie_make(
    secrets: &[u8],
    clock: u32,
    address: &[u8],
    client: &[u8],
    output: &mut [u8],
) -> u32
    ensures { result leaving output.new ≡ make_call secrets.now clock address.now client.now output.old }
{
    let secrets = match arguments::secrets_in(secrets) {
        Ok(secrets) => secrets,
        Err(fault) => return fault.into(),
    };
    let Ok(client) = <&[u8; 8]>::try_from(client) else {
        return Fault::Client.into();
    };
    match cookie::write_fresh(output, secrets.generating(), clock, address, client) {
        Ok(()) => 0,
        Err(refusal) => u8::from(refusal).into(),
    }
}

// Judges a COOKIE body.
#[tactic(auto, unfolding(crate::specs::Calls::judge_call, crate::specs::Calls::holder_refusal))]
pub fn dnscookie_judge(mode: u32, secrets: &[u8], clock: u32, address: &[u8], body: &[u8]) -> u64
    ensures { result ≡ judge_call mode secrets.now clock address.now body.now }
{
    let mode = match arguments::mode_in(mode) {
        Ok(mode) => mode,
        Err(fault) => return fault.into(),
    };
    let secrets = match arguments::secrets_in(secrets) {
        Ok(secrets) => secrets,
        Err(fault) => return fault.into(),
    };
    match cookie::judge(mode, secrets, clock, address, body) {
        Ok(verdict) => words::verdict_word(verdict),
        Err(refusal) => u8::from(refusal).into(),
    }
}

// The hash of a message. What a cookie's hash is of, 20 or 32 bytes, is hashed by its words.
#[tactic(auto, using(crate::proofs::CallLaws::hash_is))]
fn hash_of(secret: Secret, message: &[u8]) -> u64
    ensures { result ≡ sip_hash24 secret message.now }
{
    match Hashed::read(message) {
        Some(hashed) => hashed.hash(secret),
        None => siphash::siphash24(secret, message),
    }
}

// Writes the hash of a message to the front of the output.
#[tactic(auto, unfolding(crate::specs::Calls::hash_call, crate::specs::Calls::hash_refusal))]
pub fn dnscookie_siphash24(secret: &[u8], message: &[u8], output: &mut [u8]) -> u32
    ensures { result leaving output.new ≡ hash_call secret.now message.now output.old }
{
    let Ok(secret) = <&[u8; 16]>::try_from(secret) else {
        return Fault::Secrets.into();
    };
    if output.len() < 8 {
        return Fault::NoRoom.into();
    }
    let hash = hash_of(Secret::read(secret), message);
    octets::put(output, 0, &octets::le64_bytes(hash));
    0
}
