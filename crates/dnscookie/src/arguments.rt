// Arguments as the crates below take them, and why some are refused before anything else is looked at.
ghost use Rattle.std.specs.Prelude.{◌≡◌};
ghost use Rattle.dnscookie.specs.Arguments.{fault_number, mode_in, secrets_read};

use secret::{Secret, Secrets};
use verdict::Mode;

// Refusals that document 01 has not, each with its number for C: of arguments that only C can get wrong, and the last
// one, which is no fault of the arguments.
#[derive(Clone, Copy, Debug, PartialEq, Eq)]
pub enum Fault {
    // A mode that is none.
    Mode = 101,
    // Secrets that are not 16 bytes each.
    Secrets = 102,
    // A client cookie that is not 8 bytes.
    Client = 103,
    // Bytes that are no ledger.
    Ledger = 104,
    // A record that is not 32 bytes.
    Record = 105,
    // An answer above 10.
    Answer = 106,
    // Lent bytes that are fewer than what may be written.
    NoRoom = 107,
    // The ledger gives the member no secrets.
    NoSecrets = 108,
}

// For the answers of 32 bits, and for those of 64.
impl From<Fault> for u32 {
    ghost from_gives = { λ fault number. number ≡ fault_number fault };

    fn from(fault: Fault) -> u32 {
        fault as u32
    }
}

impl From<Fault> for u64 {
    ghost from_gives = { λ fault number. number ≡ fault_number fault };

    fn from(fault: Fault) -> u64 {
        fault as u64
    }
}

// A mode by its number, which is C's: 0, 1 or 2.
#[tactic(auto, unfolding(crate::specs::Calls::is_mode))]
pub fn mode_in(number: u32) -> Result<Mode, Fault>
    ensures { result ≡ mode_in number }
{
    match number {
        0 => Ok(Mode::Disabled),
        1 => Ok(Mode::Enabled),
        2 => Ok(Mode::Enforced),
        _ => Err(Fault::Mode),
    }
}

// One secret or two, the generating one first. By the length: `as_chunks` of the library takes longer (decision 103).
#[tactic(auto, unfolding(crate::specs::Calls::are_secrets, crate::specs::Calls::secrets_in))]
pub fn secrets_in(bytes: &[u8]) -> Result<Secrets, Fault>
    ensures { result ≡ secrets_read bytes.now }
{
    if let Ok(only) = <&[u8; 16]>::try_from(bytes) {
        return Ok(Secrets::One(Secret::read(only)));
    }
    if bytes.len() != 32 {
        return Err(Fault::Secrets);
    }
    Ok(Secrets::Two {
        generating: Secret::read(bytes.first_chunk().unwrap()),
        other: Secret::read(bytes.last_chunk().unwrap()),
    })
}
