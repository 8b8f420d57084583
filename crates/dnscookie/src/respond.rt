// A request answered.
ghost use Rattle.std.specs.Prelude.{◌≡◌, ◌≤◌};
ghost use Rattle.server.specs.Answers.{refusal_number, due_of, answer_of};
ghost use Rattle.server.specs.Server.{refused};
ghost use Rattle.dnscookie.specs.Arguments.{fault_number};
ghost use Rattle.dnscookie.specs.Calls.{◌leaving◌, respond_call};
ghost use Rattle.dnscookie.specs.Words.{due_number, answer_word, fault_word};

use crate::arguments::Fault;
use crate::{arguments, words};
use server::{Answered, ErrorReply, Refusal};

// The header's number of what is owed.
fn due_number(reply: ErrorReply) -> u64
    ensures { (result ≡ due_number (due_of reply)) × (result ≤ 130) }
{
    match reply {
        ErrorReply::CallersFault => 130,
        ErrorReply::Nothing => 129,
        ErrorReply::FormErr => 1,
        ErrorReply::BadVers => 16,
    }
}

fn refusal_word(refusal: Refusal) -> u64
    ensures { result ≡ answer_word (refused (refusal_number refusal)) }
{
    u8::from(refusal) as u64 + due_number(server::error_reply(refusal)) * 0x100
}

fn response_word(response: Result<Answered, Refusal>) -> u64
    ensures { result ≡ answer_word (answer_of response) }
{
    match response {
        Ok(answered) => words::verdict_word(answered.verdict) + words::reply_word(answered.reply),
        Err(refusal) => refusal_word(refusal),
    }
}

// An argument that is refused is the caller's fault.
fn fault_word(fault: Fault) -> u64
    ensures { result ≡ fault_word (fault_number fault) }
{
    u64::from(fault) + due_number(ErrorReply::CallersFault) * 0x100
}

// Answers a request. An option that the reply carries is then at the front of the output.
#[tactic(auto, unfolding(crate::specs::Calls::respond_call, crate::specs::Calls::holder_refusal))]
pub fn dnscookie_respond(
    mode: u32,
    secrets: &[u8],
    clock: u32,
    address: &[u8],
    message: &[u8],
    output: &mut [u8],
) -> u64
    ensures { result leaving output.new ≡ respond_call mode secrets.now clock address.now message.now output.old }
{
    let mode = match arguments::mode_in(mode) {
        Ok(mode) => mode,
        Err(fault) => return fault_word(fault),
    };
    let secrets = match arguments::secrets_in(secrets) {
        Ok(secrets) => secrets,
        Err(fault) => return fault_word(fault),
    };
    response_word(server::respond(mode, secrets, clock, address, message, output))
}
