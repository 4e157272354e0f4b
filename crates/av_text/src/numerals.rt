// Numerals.
ghost use Rattle.std.specs.Prelude.{◌≡◌, ℕ, ◌^◌, ◌≤◌, ◌<◌, length, IfSome, IfNone, IfOk, IsTrue};
ghost use Rattle.std.specs.Str.Parse.{digits_value};
ghost use Rattle.std.specs.List.{list_all};
ghost use Rattle.std.specs.Char.{is_ascii_digit};
ghost use Rattle.av_text.specs.Numerals.{is_numeral, number_in, is_digits};

use crate::Kind;

/// Whether each byte is a digit.
fn are_digits(token: &[u8]) -> bool
    ensures { result ≡ list_all is_ascii_digit token.now }
{
    token.iter().all(|b| b.is_ascii_digit())
}

/// Whether the token is digits alone, one at least.
#[tactic(auto, unfolding(crate::specs::Numerals::is_digits))]
pub fn is_digits(token: &[u8]) -> bool
    ensures { result ≡ is_digits token.now }
{
    !token.is_empty() && are_digits(token)
}

/// Whether the token is `0`, or digits of which the first isn't `0`.
#[tactic(auto, using(crate::proofs::Digits::digits), unfolding(crate::specs::Numerals::is_numeral))]
pub fn is_numeral(token: &[u8]) -> bool
    ensures { result ≡ is_numeral token.now }
{
    is_digits(token) && (token.len() == 1 || token[0] != b'0')
}

/// The number that the digits write. None where it is 2^128 or more.
#[tactic(auto, using(crate::proofs::Digits::digits))]
fn value(digits: &[u8]) -> Option<u128>
    requires { IsTrue (is_digits digits.now) }
    ensures some { IfSome result (λ n. n ≡ digits_value 10 digits.now) }
    ensures none { IfNone result (2 ^ 128 ≤ digits_value 10 digits.now) }
{
    let mut value: u128 = 0;
    for digit in digits {
        value = value
            .checked_mul(10)?
            .checked_add(u128::from(*digit - b'0'))?;
    }
    Some(value)
}

/// The number from low to high that the token writes. A numeral may be of any length.
#[tactic(auto, using(crate::proofs::Digits::digits), unfolding(crate::specs::Numerals::number_in))]
pub fn number_in(token: &[u8], low: u128, high: u128) -> Result<u128, Kind>
    ensures value { result ≡ number_in low high token.now }
    ensures within { IfOk result (λ n. (low ≤ n) × (n ≤ high)) }
{
    if !is_numeral(token) {
        return Err(Kind::BadNumber);
    }
    match value(token) {
        Some(number) if (low..=high).contains(&number) => Ok(number),
        _ => Err(Kind::Range),
    }
}
