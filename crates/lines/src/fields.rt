// The fields of one size, read from their text: nothing where a field is not well written.
use crate::hex;
use secret::{Secret, Secrets};
use verdict::Mode;

// How a server treats cookies, the secrets that it holds and what its clock says: the fields of a line that always go together.
#[derive(Clone, Copy)]
pub struct ServerSetting {
    pub mode: Mode,
    pub secrets: Secrets,
    pub clock: u32,
}

pub fn mode(text: &[u8]) -> Option<Mode> {
    match text {
        b"disabled" => Some(Mode::Disabled),
        b"enabled" => Some(Mode::Enabled),
        b"enforced" => Some(Mode::Enforced),
        _ => None,
    }
}

// Two bytes, big-endian. Of this and the next two only the library's function for the size differs.
pub fn count(text: &[u8]) -> Option<u16> {
    Some(u16::from_be_bytes(hex::exact(text)?))
}

// Four bytes, big-endian.
pub fn clock(text: &[u8]) -> Option<u32> {
    Some(u32::from_be_bytes(hex::exact(text)?))
}

pub fn secret(text: &[u8]) -> Option<Secret> {
    Some(Secret::read(&hex::exact(text)?))
}

// A generating secret, and another or `-`.
pub fn secrets(generating: &[u8], other: &[u8]) -> Option<Secrets> {
    let generating = secret(generating)?;
    if matches!(other, b"-") {
        return Some(Secrets::One(generating));
    }
    let other = secret(other)?;
    Some(Secrets::Two { generating, other })
}

// A mode, a generating secret, another or `-`, and a clock.
pub fn setting(
    mode_text: &[u8],
    generating: &[u8],
    other: &[u8],
    clock_text: &[u8],
) -> Option<ServerSetting> {
    Some(ServerSetting {
        mode: mode(mode_text)?,
        secrets: secrets(generating, other)?,
        clock: clock(clock_text)?,
    })
}
