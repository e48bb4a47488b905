ghost use Rattle.std.specs.Prelude.{◌≡◌, ◌<◌, ◌≤◌, ◌+◌, ◌*◌, ◌^◌, ◌↔◌, MatchOption, MatchResult, SomeIff, IsSomeAnd};
ghost use Rattle.ap_text.specs.Numbers.{spelled_value, number_value, digits_in};

/// Why a token gives no number.
#[derive(Clone, Copy, Debug, PartialEq, Eq)]
pub enum NumberFault {
    /// The token isn't of the form of numbers.
    BadNumber,
    /// The value is above 2^64 - 1.
    TooLarge,
}

/// The value that a token spells: decimal digits, or `0x` and hexadecimal digits of either case.
///
/// `BadNumber` comes exactly where the token isn't of that form, and `TooLarge` exactly where it is and its value is
/// above 2^64 - 1. It takes no memory.
#[tactic(auto, unfolding(crate::specs::Numbers::spelled_value, crate::specs::Numbers::number_value))]
pub fn number(token: &[u8]) -> Result<u64, NumberFault>
    ensures value { MatchResult result (λ v. number_value token.now ≡ Some v)
        (λ _. number_value token.now ≡ None) }
    ensures bad_number { (result ≡ Err NumberFault.BadNumber) ↔ (spelled_value token.now ≡ None) }
    ensures too_large { (result ≡ Err NumberFault.TooLarge)
        ↔ IsSomeAnd (spelled_value token.now) (λ v. 2 ^ 64 ≤ v) }
{
    match token {
        [b'0', b'x', digits @ ..] => value(digits, 16),
        _ => value(token, 10),
    }
}

/// The value of digits of this base.
fn value(digits: &[u8], base: u32) -> Result<u64, NumberFault>
    requires low { 2 ≤ base }
    requires high { base ≤ 16 }
    ensures { MatchOption (digits_in base digits.now) (result ≡ Err NumberFault.BadNumber)
        (λ v. (v < 2 ^ 64 → result ≡ Ok v) × (2 ^ 64 ≤ v → result ≡ Err NumberFault.TooLarge)) }
{
    if digits.is_empty() {
        return Err(NumberFault::BadNumber);
    }
    let mut value = Some(0u64);
    for byte in digits {
        let digit = char::from(*byte)
            .to_digit(base)
            .ok_or(NumberFault::BadNumber)?;
        value = value.and_then(|front| appended(front, base, digit));
    }
    value.ok_or(NumberFault::TooLarge)
}

/// The value with one more digit, if it fits.
fn appended(value: u64, base: u32, digit: u32) -> Option<u64>
    ensures { SomeIff result (value * base + digit < 2 ^ 64) (value * base + digit) }
{
    value
        .checked_mul(u64::from(base))?
        .checked_add(u64::from(digit))
}
