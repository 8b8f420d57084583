// What C calls of crates/dnscookie, under its names in include/dnscookie.h. Each function is that crate's, with its promise: no crate can
// stand on a static library, so that they are said twice.
#![tactic(auto)]

ghost use Rattle.std.specs.Prelude.{◌≡◌};
ghost use Rattle.dnscookie.specs.Calls.{◌leaving◌, make_call, hash_call, judge_call, fresh_call, step_call, secrets_call, line_call, respond_call};

// Writes a fresh option under the generating secret to the front of the output.
#[unsafe(no_mangle)]
pub extern "C" fn dnscookie_make(
    secrets: &[u8],
    clock: u32,
    address: &[u8],
    client: &[u8],
    output: &mut [u8],
) -> u32
    ensures { result leaving output.new ≡ make_call secrets.now clock address.now client.now output.old }
{
    dnscookie::dnscookie_make(secrets, clock, address, client, output)
}

// Writes the hash of a message to the front of the output.
#[unsafe(no_mangle)]
pub extern "C" fn dnscookie_siphash24(secret: &[u8], message: &[u8], output: &mut [u8]) -> u32
    ensures { result leaving output.new ≡ hash_call secret.now message.now output.old }
{
    dnscookie::dnscookie_siphash24(secret, message, output)
}

// Judges a COOKIE body.
#[unsafe(no_mangle)]
pub extern "C" fn dnscookie_judge(
    mode: u32,
    secrets: &[u8],
    clock: u32,
    address: &[u8],
    body: &[u8],
) -> u64
    ensures { result ≡ judge_call mode secrets.now clock address.now body.now }
{
    dnscookie::dnscookie_judge(mode, secrets, clock, address, body)
}

// Answers a request. An option that the reply carries is then at the front of the output.
#[unsafe(no_mangle)]
pub extern "C" fn dnscookie_respond(
    mode: u32,
    secrets: &[u8],
    clock: u32,
    address: &[u8],
    message: &[u8],
    output: &mut [u8],
) -> u64
    ensures { result leaving output.new ≡ respond_call mode secrets.now clock address.now message.now output.old }
{
    dnscookie::dnscookie_respond(mode, secrets, clock, address, message, output)
}

// A fresh ledger.
#[unsafe(no_mangle)]
pub extern "C" fn dnscookie_ledger_fresh(state: &mut [u8]) -> u32
    ensures { result leaving state.new ≡ fresh_call state.old }
{
    dnscookie::dnscookie_ledger_fresh(state)
}

// A record of the journal, offered to the ledger.
#[unsafe(no_mangle)]
pub extern "C" fn dnscookie_ledger_step(state: &mut [u8], bytes: &[u8]) -> u32
    ensures { result leaving state.new ≡ step_call state.old bytes.now }
{
    dnscookie::dnscookie_ledger_step(state, bytes)
}

// A member's secrets: the generating one, and behind it the other if it holds two.
#[unsafe(no_mangle)]
pub extern "C" fn dnscookie_ledger_secrets(state: &[u8], member: u32, output: &mut [u8]) -> u64
    ensures { result leaving output.new ≡ secrets_call state.now member output.old }
{
    dnscookie::dnscookie_ledger_secrets(state, member, output)
}

// The listing's line of a record: its number in the journal, the record, what the step answered, and the ledger that it left.
#[unsafe(no_mangle)]
pub extern "C" fn dnscookie_ledger_line(
    state: &[u8],
    number: u64,
    bytes: &[u8],
    answer: u32,
    output: &mut [u8],
) -> u64
    ensures { result leaving output.new ≡ line_call state.now number bytes.now answer output.old }
{
    dnscookie::dnscookie_ledger_line(state, number, bytes, answer, output)
}
