// A making.
ghost use Rattle.std.specs.Prelude.{◌≡◌};
ghost use Rattle.octets.specs.Refusals.{answered};
ghost use Rattle.cookie.specs.CookieOption.{fresh_refusal};
ghost use Rattle.cookie.specs.ServerCookie.{sip_hash_method};
ghost use Rattle.ledger.specs.Ledger.{view_of};
ghost use Rattle.ledger.specs.Rules.{wait};
ghost use Rattle.fleet.specs.Answers.{fault_answer, made_answer};
ghost use Rattle.fleet.specs.Calls.{◌leaving◌, reply_to};
ghost use Rattle.fleet.specs.Calls.Answer.{refused, no_secrets};
ghost use Rattle.fleet.specs.Calls.Call.{making};

use crate::Fault;
use cookie::Refusal;
use ledger::Ledger;

// Of a making by who holds no secrets: a refusal of the request table goes before. cookie's own tests stand in functions that want a
// secret, so that they are asked here again.
#[tactic(auto, unfolding(cookie::specs::CookieOption::fresh_refusal))]
fn make_without(address: &[u8], output: &[u8]) -> Fault
    ensures { fault_answer result ≡ answered refused (fresh_refusal output.now address.now) no_secrets }
{
    if output.len() < 28 {
        return Fault::Refused(Refusal::Output);
    }
    if !cookie::is_address(address) {
        return Fault::Refused(Refusal::Address);
    }
    Fault::NoSecrets
}

// A member makes a fresh cookie for a client: a COOKIE option of 28 bytes at the front of the output, under its generating secret.
// The ledger stays as it is.
pub fn make(
    ledger: Ledger,
    member: u8,
    time: u64,
    client: &[u8; 8],
    address: &[u8],
    output: &mut [u8],
) -> Result<(), Fault>
    ensures { made_answer result leaving output.new ≡ reply_to wait sip_hash_method (view_of ledger) (making member time client.now address.now output.old) }
{
    let Some(secrets) = ledger.secrets(member) else {
        return Err(make_without(address, output));
    };
    let clock = crate::clock_at(time);
    cookie::write_fresh(output, secrets.generating(), clock, address, client)?;
    Ok(())
}
