// A checking.
ghost use Rattle.std.specs.Prelude.{◌≡◌, []};
ghost use Rattle.octets.specs.Refusals.{answered};
ghost use Rattle.cookie.specs.ServerCookie.{sip_hash_method, checking_refusal};
ghost use Rattle.ledger.specs.Ledger.{view_of};
ghost use Rattle.ledger.specs.Rules.{wait};
ghost use Rattle.fleet.specs.Answers.{checked_answer, fault_answer};
ghost use Rattle.fleet.specs.Calls.{◌leaving◌, reply_to};
ghost use Rattle.fleet.specs.Calls.Answer.{refused, no_secrets};
ghost use Rattle.fleet.specs.Calls.Call.{checking};

use crate::Fault;
use cookie::Refusal;
use ledger::Ledger;
use verdict::{Mode, Verdict};

// Of a checking by who holds no secrets.
#[tactic(auto, unfolding(cookie::specs::ServerCookie::checking_refusal))]
fn check_without(mode: Mode, address: &[u8], body: &[u8]) -> Fault
    ensures { fault_answer result ≡ answered refused (checking_refusal mode address.now body.now) no_secrets }
{
    if !cookie::is_address(address) {
        return Fault::Refused(Refusal::Address);
    }
    if verdict::is_disabled(mode) {
        return Fault::NoSecrets;
    }
    if !edns::is_cookie_length(body.len()) {
        return Fault::Refused(Refusal::Body);
    }
    Fault::NoSecrets
}

// A member checks the COOKIE body that came from an address: the judge's verdict under its secrets. The ledger stays as it is.
// Member, mode, time and address come one by one, as the call of the definition has them (`checking`).
pub fn check(
    ledger: Ledger,
    member: u8,
    mode: Mode,
    time: u64,
    address: &[u8],
    body: &[u8],
) -> Result<Verdict, Fault>
    ensures { checked_answer result leaving [] ≡ reply_to wait sip_hash_method (view_of ledger) (checking member mode time address.now body.now) }
{
    let Some(secrets) = ledger.secrets(member) else {
        return Err(check_without(mode, address, body));
    };
    let clock = crate::clock_at(time);
    Ok(cookie::judge(mode, secrets, clock, address, body)?)
}
