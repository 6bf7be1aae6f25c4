//! Decimal numbers.

ghost use Rattle.std.specs.Prelude.{◌≡◌, ◌-◌, ◌^◌};
ghost use Rattle.text.specs.Texts.{value_up_to, natural_of, decimal_of};

/// The value of one to `most` digits, if it fits 16 bits. Leading zeros are allowed.
#[tactic(auto, unfolding(crate::specs::Texts::value_of))]
pub fn decimal(bytes: &[u8], most: usize) -> Option<u16>
    ensures { result ≡ decimal_of most bytes.now }
{
    if bytes.is_empty() || bytes.len() > most {
        return None;
    }
    u16::try_from(value(bytes)?).ok()
}

/// The value of digits, at least one of them. Leading zeros are allowed.
pub fn natural(bytes: &[u8]) -> Option<usize>
    ensures { result ≡ natural_of bytes.now }
{
    if bytes.is_empty() {
        return None;
    }
    value(bytes)
}

/// The value of digits, if it fits.
fn value(bytes: &[u8]) -> Option<usize>
    ensures { result ≡ value_up_to (2 ^ 64 - 1) bytes.now }
{
    let mut sum: usize = 0;
    for b in bytes {
        if !b.is_ascii_digit() {
            return None;
        }
        // A value only grows, so no further digit brings it back.
        sum = sum.checked_mul(10)?.checked_add(usize::from(*b - b'0'))?;
    }
    Some(sum)
}
