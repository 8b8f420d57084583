// The COOKIE option of a reply, 28 bytes, written into a lent buffer and read back.
ghost use Rattle.std.specs.Prelude.{◌≡◌, ◌++◌, ◌≤◌, length, drop};
ghost use Rattle.octets.specs.Numbers.{le_bytes};
ghost use Rattle.cookie.specs.Hashed.{address_bytes};
ghost use Rattle.cookie.specs.ServerCookie.{sip_hash_method};
ghost use Rattle.cookie.specs.CookieOption.{written_number, option_head, fresh_front, fresh_option, fresh_refusal, kept_option, kept_refusal, output_after, written_body};

use crate::{Address, Hashed, Refusal};
use secret::Secret;

// Code 10 and length 24.
const HEAD: [u8; 4] = *b"\x00\x0a\x00\x18";

// Writes the head and a body's three words.
fn write_words(output: &mut [u8], w0: u64, w1: u64, w2: u64)
    requires { 28 ≤ length output.old }
    ensures { output.new ≡ option_head ++ (le_bytes 8 w0 ++ (le_bytes 8 w1 ++ le_bytes 8 w2)) ++ drop 28 output.old }
{
    octets::put(output, 0, &HEAD);
    octets::put(output, 4, &octets::le64_bytes(w0));
    octets::put(output, 12, &octets::le64_bytes(w1));
    octets::put(output, 20, &octets::le64_bytes(w2));
}

// Bytes 0 to 7 of a fresh server cookie as a word: version 1, reserved zero, the clock.
#[tactic(auto, using(crate::proofs::OptionLaws::front_is))]
fn front(clock: u32) -> u64
    ensures { le_bytes 8 result ≡ fresh_front sip_hash_method clock }
{
    let b = octets::be32_bytes(clock);
    octets::le64([1, 0, 0, 0, b[0], b[1], b[2], b[3]])
}

// Writes a fresh option for a client: its cookie, and a server cookie made at the clock under the secret.
#[tactic(auto, using(crate::proofs::OptionLaws::fresh_no_room, crate::proofs::OptionLaws::fresh_done))]
pub fn write_fresh_for(
    output: &mut [u8],
    secret: Secret,
    clock: u32,
    address: Address,
    client: &[u8; 8],
) -> Result<(), Refusal>
    ensures { (written_number result ≡ fresh_refusal output.old (address_bytes address))
        × (output.new ≡ output_after (fresh_refusal output.old (address_bytes address)) (fresh_option sip_hash_method secret clock (address_bytes address) client.now) output.old) }
{
    if output.len() < 28 {
        return Err(Refusal::Output);
    }
    let hashed = Hashed {
        client: crate::word(client, 0),
        front: front(clock),
        address,
    };
    write_words(output, hashed.client, hashed.front, hashed.hash(secret));
    Ok(())
}

// The same, of an address in its bytes, which its promise is on: so secret, clock and address come one by one, and no `Setting`.
#[tactic(auto, using(crate::proofs::OptionLaws::fresh_no_room, crate::proofs::OptionLaws::fresh_no_address, crate::proofs::MessageLaws::not_read, crate::proofs::MessageLaws::is_read))]
pub fn write_fresh(
    output: &mut [u8],
    secret: Secret,
    clock: u32,
    address: &[u8],
    client: &[u8; 8],
) -> Result<(), Refusal>
    ensures { (written_number result ≡ fresh_refusal output.old address.now)
        × (output.new ≡ output_after (fresh_refusal output.old address.now) (fresh_option sip_hash_method secret clock address.now client.now) output.old) }
{
    if output.len() < 28 {
        return Err(Refusal::Output);
    }
    let address = Address::read(address).ok_or(Refusal::Address)?;
    write_fresh_for(output, secret, clock, address, client)
}

// Writes a kept option: the COOKIE body of 24 bytes that came.
#[tactic(auto, using(crate::proofs::OptionLaws::kept_no_room, crate::proofs::OptionLaws::kept_no_body, crate::proofs::OptionLaws::kept_done))]
pub fn write_kept(output: &mut [u8], body: &[u8]) -> Result<(), Refusal>
    ensures { (written_number result ≡ kept_refusal output.old body.now)
        × (output.new ≡ output_after (kept_refusal output.old body.now) (kept_option body.now) output.old) }
{
    if output.len() < 28 {
        return Err(Refusal::Output);
    }
    if body.len() != 24 {
        return Err(Refusal::NotKept);
    }
    write_words(
        output,
        crate::word(body, 0),
        crate::word(body, 8),
        crate::word(body, 16),
    );
    Ok(())
}

// The 24-byte body of an option that was written at the front of a buffer, as a part of it; an empty part for anything else.
#[tactic(auto, using(crate::proofs::OptionLaws::body_short, crate::proofs::OptionLaws::body_other, crate::proofs::OptionLaws::body_is))]
pub fn written_body(buffer: &[u8]) -> &[u8]
    ensures { result.now ≡ written_body buffer.now }
{
    if buffer.len() < 28 || !octets::same(&buffer[..4], &HEAD) {
        return &[];
    }
    &buffer[4..28]
}
