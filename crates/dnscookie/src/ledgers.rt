// A ledger whose snapshot is in bytes that C lends.
ghost use Rattle.std.specs.Prelude.{◌≡◌, ◌≤◌, length};
ghost use Rattle.std.proofs.Math.Option.{some};
ghost use Rattle.octets.specs.Runs.{written};
ghost use Rattle.dnscookie.specs.Calls.{◌leaving◌, handed_over, fresh_call, step_call, secrets_call, line_call};

use crate::arguments::Fault;
use ledger::Ledger;
use secret::Secrets;

// A fresh ledger. 0 is the header's number for done, here and for a step.
#[tactic(auto, unfolding(crate::specs::Calls::fresh_call, snapshot::specs::Snapshot::kept_in))]
pub fn dnscookie_ledger_fresh(state: &mut [u8]) -> u32
    ensures { result leaving state.new ≡ fresh_call state.old }
{
    if snapshot::write(state, Ledger::fresh()) {
        return 0;
    }
    Fault::Ledger.into()
}

// A record of the journal, offered to the ledger. Only a step that is accepted is written.
#[tactic(auto, unfolding(crate::specs::Calls::step_call))]
pub fn dnscookie_ledger_step(state: &mut [u8], bytes: &[u8]) -> u32
    ensures { result leaving state.new ≡ step_call state.old bytes.now }
{
    let Some(mut ledger) = snapshot::read(state) else {
        return Fault::Ledger.into();
    };
    let Ok(bytes) = <&[u8; 32]>::try_from(bytes) else {
        return Fault::Record.into();
    };
    match ledger.step(bytes) {
        Ok(()) => {
            snapshot::write(state, ledger);
            0
        }
        Err(refusal) => u32::from(u8::from(refusal)),
    }
}

// Writes the secrets that a member holds to the front of the output, and tells how many bytes they are.
fn put_secrets(secrets: Secrets, output: &mut [u8]) -> u64
    requires { 32 ≤ length output.old }
    ensures { result leaving output.new ≡ handed_over (some secrets) output.old }
{
    match secrets {
        Secrets::One(secret) => {
            octets::put(output, 0, &secret.bytes());
            16 * 0x100
        }
        Secrets::Two { generating, other } => {
            octets::put(output, 0, &generating.bytes());
            octets::put(output, 16, &other.bytes());
            32 * 0x100
        }
    }
}

// A member's secrets: the generating one, and behind it the other if it holds two.
#[tactic(auto, unfolding(crate::specs::Calls::secrets_call))]
pub fn dnscookie_ledger_secrets(state: &[u8], member: u32, output: &mut [u8]) -> u64
    ensures { result leaving output.new ≡ secrets_call state.now member output.old }
{
    let Some(ledger) = snapshot::read(state) else {
        return Fault::Ledger.into();
    };
    if output.len() < 32 {
        return Fault::NoRoom.into();
    }
    let Ok(member) = u8::try_from(member) else {
        return Fault::NoSecrets.into();
    };
    let Some(secrets) = ledger.secrets(member) else {
        return Fault::NoSecrets.into();
    };
    put_secrets(secrets, output)
}

// The listing's line of a record: its number in the journal, the record, what the step answered, and the ledger that it left.
#[tactic(auto, unfolding(crate::specs::Calls::line_call, crate::specs::Calls::line_refusal))]
pub fn dnscookie_ledger_line(
    state: &[u8],
    number: u64,
    bytes: &[u8],
    answer: u32,
    output: &mut [u8],
) -> u64
    ensures { result leaving output.new ≡ line_call state.now number bytes.now answer output.old }
{
    let Some(ledger) = snapshot::read(state) else {
        return Fault::Ledger.into();
    };
    if bytes.len() != 32 {
        return Fault::Record.into();
    }
    if 10 < answer {
        return Fault::Answer.into();
    }
    if output.len() < rows::LONGEST {
        return Fault::NoRoom.into();
    }
    let row = listing::row_of(number, bytes[0], answer as u8, ledger);
    rows::put_row(output, 0, row) as u64 * 0x100
}
