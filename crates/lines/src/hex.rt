// Bytes in hexadecimal.
ghost use Rattle.std.specs.Prelude.{◌≡◌, ◌*◌, ◌/◌, ◌≤◌, IfSome, IsSome, length};

const DIGITS: &[u8; 16] = b"0123456789abcdef";

// The byte of two digits.
fn byte(high: u8, low: u8) -> Option<u8> {
    let value = char::from(high).to_digit(16)? * 16 + char::from(low).to_digit(16)?;
    Some(value as u8)
}

// Decodes a text of digit pairs, or `-` for no bytes, into the front of a buffer, and hands that part of it out.
pub fn decode<'a>(text: &[u8], out: &'a mut [u8]) -> Option<&'a mut [u8]>
    ensures pairs { IfSome result (λ part. length part.now ≡ length text.now / 2) }
    ensures front { IfSome result (λ part. length part.now ≤ length out.old) }
{
    if matches!(text, b"-") {
        return Some(&mut out[..0]);
    }
    if text.is_empty() || text.len() % 2 != 0 {
        return None;
    }
    let part = out.get_mut(..text.len() / 2)?;
    for (place, pair) in part.iter_mut().zip(text.chunks_exact(2)) {
        *place = byte(pair[0], pair[1])?;
    }
    Some(part)
}

// Decodes a field that may have any length up to 65,535 bytes.
pub fn decode_part<'a>(text: &[u8], out: &'a mut [u8]) -> Option<&'a mut [u8]>
    ensures pairs { IfSome result (λ part. length part.now ≡ length text.now / 2) }
    ensures front { IfSome result (λ part. length part.now ≤ length out.old) }
{
    if 131070 < text.len() {
        return None;
    }
    decode(text, out)
}

// Decodes a field of a fixed size.
pub fn exact<const N: usize>(text: &[u8]) -> Option<[u8; N]>
    ensures { IsSome result → length text.now / 2 ≡ N }
{
    let mut bytes = [0; N];
    if decode(text, &mut bytes)?.len() == N {
        Some(bytes)
    } else {
        None
    }
}

// The digits of bytes, at the front of a buffer. `{b:02x}` would print the same by a write for each byte.
pub(crate) fn encode<'a>(bytes: &[u8], room: &'a mut [u8]) -> &'a [u8]
    requires { 2 * length bytes.now ≤ length room.old }
{
    let digits = &mut room[..2 * bytes.len()];
    for (pair, b) in digits.chunks_exact_mut(2).zip(bytes) {
        pair[0] = DIGITS[(*b / 16) as usize];
        pair[1] = DIGITS[(*b % 16) as usize];
    }
    digits
}
