// The reply that a verdict owes.
ghost use Rattle.std.specs.Prelude.{◌≡◌, if◌then◌else◌, nat_eq};
ghost use Rattle.verdict.specs.Findings.{finding};
ghost use Rattle.verdict.specs.ReplyTable.{is_disabled, is_enforced, is_young, reserved_zero, serve, error, sent_of, owed_of, reply_owed, kept_or_fresh, enabled_reply, enforced_reply};

use crate::{Action, Carried, Mode, Reply, Verdict, Which};

// Whether cookies are ignored: a name for the test, which cookie, server and fleet ask too.
pub fn is_disabled(mode: Mode) -> bool
    ensures { result ≡ is_disabled mode }
{
    mode == Mode::Disabled
}

// Whether a good cookie's age is one to keep it at.
#[tactic(auto, unfolding(crate::specs::ReplyTable::is_young))]
fn is_young(age: i32) -> bool
    ensures { result ≡ is_young age }
{
    (0..=1800).contains(&age)
}

// Whether the reserved bytes of a COOKIE body are there and zero.
#[tactic(auto, using(crate::proofs::ReplyLaws::reserved_there, crate::proofs::ReplyLaws::reserved_short))]
fn has_zero_reserved(body: &[u8]) -> bool
    ensures { result ≡ reserved_zero body.now }
{
    12 <= body.len() && octets::same(&body[9..12], b"\x00\x00\x00")
}

// Whether a good cookie is sent again or a fresh one.
fn kept_or_fresh(age: i32, secret: Which, body: &[u8]) -> Carried
    ensures { result ≡ kept_or_fresh age secret body.now }
{
    if secret == Which::Generating && is_young(age) && has_zero_reserved(body) {
        Carried::Kept
    } else {
        Carried::Fresh
    }
}

// Whether the mode is Enforced.
fn is_enforced(mode: Mode) -> bool
    ensures { result ≡ is_enforced mode }
{
    mode == Mode::Enforced
}

// A client cookie alone: it is served where there is no question, too.
fn client_action(enforced: bool, qdcount: u16) -> Action
    ensures { sent_of result ≡ (if enforced then (if nat_eq qdcount 0 then serve else error 23) else serve) }
{
    if enforced && qdcount != 0 {
        Action::BadCookie
    } else {
        Action::Serve
    }
}

// Both columns of the table outside mode Disabled. The verdict is asked before the mode: the compiler then goes on from each place that
// gives a verdict, and does not ask it again.
fn outside_disabled(enforced: bool, qdcount: u16, verdict: Verdict, body: &[u8]) -> Reply
    ensures { owed_of result ≡ (if enforced then enforced_reply qdcount (finding verdict) body.now else enabled_reply (finding verdict) body.now) }
{
    let (action, option) = match verdict {
        Verdict::Ignored => (Action::Serve, Carried::Nothing),
        Verdict::Absent if enforced => (Action::Truncate, Carried::Nothing),
        Verdict::Absent => (Action::Serve, Carried::Nothing),
        Verdict::ClientOnly => (client_action(enforced, qdcount), Carried::Fresh),
        Verdict::Bad(_) => (Action::BadCookie, Carried::Fresh),
        Verdict::Good { age, secret } => (Action::Serve, kept_or_fresh(age, secret, body)),
    };
    Reply { action, option }
}

// The reply owed to a request, of its QDCOUNT, the verdict and the COOKIE body that was judged, which is empty where there is none.
pub fn reply_for(mode: Mode, qdcount: u16, verdict: Verdict, body: &[u8]) -> Reply
    ensures { owed_of result ≡ reply_owed mode qdcount (finding verdict) body.now }
{
    if is_disabled(mode) {
        return Reply {
            action: Action::Serve,
            option: Carried::Nothing,
        };
    }
    outside_disabled(is_enforced(mode), qdcount, verdict, body)
}
