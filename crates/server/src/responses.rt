// A request answered: the checks in their order, the verdict, the reply and its option.
ghost use Rattle.std.specs.Prelude.{◌≡◌, true, ◌≤◌, length, []};
ghost use Rattle.std.proofs.Math.Option.{some};
ghost use Rattle.verdict.specs.Findings.Finding.{absent};
ghost use Rattle.verdict.specs.ReplyTable.{reply_owed};
ghost use Rattle.verdict.specs.declared.Carried.TheVariants.{Kept};
ghost use Rattle.cookie.specs.Hashed.{address_bytes};
ghost use Rattle.cookie.specs.ServerCookie.{sip_hash_method, is_body};
ghost use Rattle.server.specs.Answers.{replied_of, answer_of};
ghost use Rattle.server.specs.Server.{replied, ◌leaving◌, respond};
ghost use Rattle.server.specs.Steps.{with_option, on_cookie, ignoring};

use crate::{Answered, Refusal};
use cookie::{Address, Setting};
use secret::Secrets;
use verdict::{Action, Carried, Mode, Reply, Verdict};

// Writes the option that a reply carries.
#[tactic(auto, using(crate::proofs::ReplyLaws::fresh_ok, crate::proofs::ReplyLaws::kept_ok))]
fn write_option(option: Carried, setting: Setting, body: &[u8], output: &mut [u8; 28])
    requires { (8 ≤ length body.now) × (option ≡ Kept → length body.now ≡ 24) }
    ensures { output.new ≡ with_option sip_hash_method setting.secrets setting.clock (address_bytes setting.address) body.now option output.old }
{
    match option {
        Carried::Nothing => {}
        Carried::Fresh => {
            let Setting {
                secrets,
                clock,
                address,
            } = setting;
            let client = body.first_chunk::<8>().unwrap();
            cookie::write_fresh_for(output, secrets.generating(), clock, address, client).unwrap();
        }
        Carried::Kept => cookie::write_kept(output, body).unwrap(),
    }
}

// A request with a COOKIE option: its body judged, and the reply's option written.
fn with_cookie(
    mode: Mode,
    setting: Setting,
    qdcount: u16,
    body: &[u8],
    output: &mut [u8; 28],
) -> Answered
    requires { is_body body.now ≡ true }
    ensures { replied_of result leaving output.new ≡ on_cookie sip_hash_method mode setting.secrets setting.clock (address_bytes setting.address) qdcount output.old (some body.now) }
{
    let verdict = setting.judge_body(body);
    let reply = verdict::reply_for(mode, qdcount, verdict, body);
    write_option(reply.option, setting, body, output);
    Answered { verdict, reply }
}

// A request without one.
fn without_cookie(mode: Mode, qdcount: u16) -> Answered
    ensures { replied_of result ≡ replied absent (reply_owed mode qdcount absent []) }
{
    let verdict = Verdict::Absent;
    let reply = verdict::reply_for(mode, qdcount, verdict, b"");
    Answered { verdict, reply }
}

// Mode Disabled: checks 3 and 4, and the message is looked at no further.
fn ignore(message: &[u8]) -> Result<Answered, Refusal>
    ensures { answer_of result ≡ ignoring message.now }
{
    request::check_head(message)?;
    Ok(Answered {
        verdict: Verdict::Ignored,
        reply: Reply {
            action: Action::Serve,
            option: Carried::Nothing,
        },
    })
}

// Answers a request: a message from a client's address (4 or 16 bytes), at a clock (seconds modulo 2^32), for a member of this mode that
// holds these secrets, with an output of 28 bytes or more. Where the reply carries a COOKIE option, its 28 bytes are written to the front
// of the output; every other byte of the output, and all of them on refusal, stay. All is taken one by one, as the promise is on bytes.
pub fn respond(
    mode: Mode,
    secrets: Secrets,
    clock: u32,
    address: &[u8],
    message: &[u8],
    output: &mut [u8],
) -> Result<Answered, Refusal>
    ensures { answer_of result leaving output.new ≡ respond sip_hash_method mode secrets clock address.now message.now output.old }
{
    if output.len() < 28 {
        return Err(Refusal::Output);
    }
    if !cookie::is_address(address) {
        return Err(Refusal::Address);
    }
    if verdict::is_disabled(mode) {
        return ignore(message);
    }
    let reading = request::read(message)?;
    let qdcount = reading.qdcount;
    match reading.cookie {
        None => Ok(without_cookie(mode, qdcount)),
        Some(cookie) => {
            // The address is read only here: its words would take the registers that the walk through the message needs.
            let setting = Setting {
                secrets,
                clock,
                address: Address::read(address).unwrap(),
            };
            let body = &message[cookie.start..cookie.end];
            let option = output.first_chunk_mut().unwrap();
            Ok(with_cookie(mode, setting, qdcount, body, option))
        }
    }
}
