// Decimal numbers as a person types them: digits, zeros in front too, and nothing else. The library's `parse` takes a
// sign in front, so it is another rule.
#![tactic(auto)]

ghost use Rattle.std.specs.Prelude.{◌≡◌, ◌^◌};
ghost use Rattle.decimal.specs.Decimal.{told, below, decimal};

// A number that fits.
#[tactic(auto, using(crate::proofs::DecimalLaws::turns))]
pub fn number(text: &[u8]) -> Option<u64>
    ensures { told result ≡ below (2 ^ 64) (decimal text.now) }
{
    if text.is_empty() {
        return None;
    }
    let mut number = 0u64;
    for &b in text {
        if !b.is_ascii_digit() {
            return None;
        }
        let digit = (b - b'0') as u64;
        number = number.checked_mul(10)?.checked_add(digit)?;
    }
    Some(number)
}

// A number from 0 to 255.
#[tactic(auto, using(crate::proofs::DecimalLaws::bytes), unfolding(crate::specs::Decimal::below))]
pub fn byte(text: &[u8]) -> Option<u8>
    ensures { told result ≡ below 256 (decimal text.now) }
{
    u8::try_from(number(text)?).ok()
}
