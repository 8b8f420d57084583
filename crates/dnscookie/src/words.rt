// A verdict and a reply as numbers: the fields of an answer that include/dnscookie.h names.
ghost use Rattle.std.specs.Prelude.{◌≡◌, ◌+◌, ◌*◌, ◌^◌, ◌<◌, ◌≤◌};
ghost use Rattle.verdict.specs.Findings.{finding, step_of};
ghost use Rattle.verdict.specs.ReplyTable.{owed_of, sent_of};
ghost use Rattle.dnscookie.specs.Words.{finding_number, which_number, age_number, in32, sent_number, option_number};

use verdict::{Action, Carried, Reason, Reply, Verdict, Which};

// An age in 32 bits, in two's complement.
fn in32(age: i32) -> u64
    ensures { (result ≡ in32 age) × (result < 2 ^ 32) }
{
    u64::from(age.cast_unsigned())
}

fn bad_number(reason: Reason) -> u64
    ensures { (result ≡ 202 + step_of reason) × (result ≤ 205) }
{
    match reason {
        Reason::Method => 203,
        Reason::Hash => 204,
        Reason::Time => 205,
    }
}

fn good_number(secret: Which) -> u64
    ensures { (result ≡ which_number secret) × (result ≤ 207) }
{
    match secret {
        Which::Generating => 206,
        Which::Other => 207,
    }
}

// The number of a verdict, and above it the age of a good cookie. Between them there is room for a reply.
pub fn verdict_word(verdict: Verdict) -> u64
    ensures { (result ≡ finding_number (finding verdict) + 2 ^ 32 * age_number (finding verdict)) × (result + 2 ^ 20 ≤ 2 ^ 64) }
{
    match verdict {
        Verdict::Ignored => 200,
        Verdict::Absent => 201,
        Verdict::ClientOnly => 202,
        Verdict::Bad(reason) => bad_number(reason),
        Verdict::Good { age, secret } => good_number(secret) + in32(age) * 0x100000000,
    }
}

fn action_number(action: Action) -> u64
    ensures { (result ≡ sent_number (sent_of action)) × (result ≤ 128) }
{
    match action {
        Action::Serve => 0,
        Action::BadCookie => 23,
        Action::Truncate => 128,
    }
}

fn option_number(option: Carried) -> u64
    ensures { (result ≡ option_number option) × (result ≤ 2) }
{
    match option {
        Carried::Nothing => 0,
        Carried::Fresh => 1,
        Carried::Kept => 2,
    }
}

// What a reply is and which option it carries.
pub fn reply_word(reply: Reply) -> u64
    ensures { (result ≡ 2 ^ 8 * sent_number (owed_of reply).sent + 2 ^ 16 * option_number (owed_of reply).option) × (result < 2 ^ 20) }
{
    let action = reply.action;
    let option = reply.option;
    action_number(action) * 0x100 + option_number(option) * 0x10000
}
