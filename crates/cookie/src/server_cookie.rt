// The verdict on a COOKIE body.
ghost use Rattle.std.specs.Prelude.{◌≡◌, ◌≤◌, length};
ghost use Rattle.octets.specs.Numbers.{be32_at};
ghost use Rattle.cookie.specs.Hashed.{address_bytes};
ghost use Rattle.verdict.specs.Findings.{finding};
ghost use Rattle.cookie.specs.ServerCookie.{answer_of, sip_hash_method, judge_body, judgement};

use crate::{Address, Hashed, Refusal};
use secret::Secrets;
use verdict::{Mode, Reason, Verdict};

// Bytes 12 to 15 of a body as a number.
#[tactic(auto, using(octets::proofs::ReadLaws::be32_part))]
fn timestamp(body: &[u8]) -> u32
    ensures { result ≡ be32_at body.now 12 }
{
    octets::be32(octets::bytes_at(body, 12))
}

// What a server judges a cookie by: the secrets that it holds, its clock and the client's address.
#[derive(Clone, Copy)]
pub struct Setting {
    pub secrets: Secrets,
    pub clock: u32,
    pub address: Address,
}

impl Setting {
    // The three steps on a body whose server cookie is 16 bytes. Inlined, as `Hashed::hash` is.
    #[tactic(auto, using(crate::proofs::ServerLaws::judge_hash, crate::proofs::ServerLaws::judge_time, crate::proofs::BodyLaws::judge_version))]
    #[inline(always)]
    fn judge_server(self, body: &[u8]) -> Verdict
        requires { length body.now ≡ 24 }
        ensures { finding result ≡ judge_body sip_hash_method self.secrets self.clock (address_bytes self.address) body.now }
    {
        if body[8] != 1 {
            return Verdict::Bad(Reason::Method);
        }
        let hashed = Hashed {
            client: crate::word(body, 0),
            front: crate::word(body, 8),
            address: self.address,
        };
        match hashed.matching(self.secrets, crate::word(body, 16)) {
            None => Verdict::Bad(Reason::Hash),
            Some(secret) => {
                verdict::by_time(verdict::serial_age(self.clock, timestamp(body)), secret)
            }
        }
    }

    // The verdict on a COOKIE body of any bytes, outside mode Disabled.
    #[tactic(auto, using(crate::proofs::BodyLaws::judge_8, crate::proofs::BodyLaws::judge_other))]
    #[inline(always)]
    pub fn judge_body(self, body: &[u8]) -> Verdict
        ensures { finding result ≡ judge_body sip_hash_method self.secrets self.clock (address_bytes self.address) body.now }
    {
        match body.len() {
            8 => Verdict::ClientOnly,
            24 => self.judge_server(body),
            _ => Verdict::Bad(Reason::Method),
        }
    }
}

// Judges a COOKIE body of any bytes: the verdict, or the refusal of what can't be judged. It takes secrets, clock and address one by one,
// and no `Setting`: its promise is on the address's bytes.
#[tactic(auto, using(crate::proofs::ServerLaws::refuse_address, crate::proofs::ServerLaws::judge_ignored, crate::proofs::ServerLaws::refuse_body, crate::proofs::ServerLaws::judge_found, crate::proofs::MessageLaws::is_read, crate::proofs::MessageLaws::read_some))]
pub fn judge(
    mode: Mode,
    secrets: Secrets,
    clock: u32,
    address: &[u8],
    body: &[u8],
) -> Result<Verdict, Refusal>
    ensures { answer_of result ≡ judgement sip_hash_method mode secrets clock address.now body.now }
{
    if !crate::is_address(address) {
        return Err(Refusal::Address);
    }
    if verdict::is_disabled(mode) {
        return Ok(Verdict::Ignored);
    }
    if !edns::is_cookie_length(body.len()) {
        return Err(Refusal::Body);
    }
    // The address is read only here: what is refused or ignored needs none of its bytes.
    let setting = Setting {
        secrets,
        clock,
        address: Address::read(address).unwrap(),
    };
    Ok(setting.judge_body(body))
}
