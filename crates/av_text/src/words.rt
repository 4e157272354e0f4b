// Words, in the compact form as 213 and in the comma form as 2,1,3.
ghost use Rattle.std.specs.Prelude.{◌≡◌, ℕ, ◌-◌, ◌≤◌, ◌<◌, map, length, IsTrue, MatchOption};
ghost use Rattle.std.specs.List.{list_all};
ghost use Rattle.std.specs.Str.Parse.{digits_value};
ghost use Rattle.av_text.specs.Numerals.{is_digits, is_numeral};
ghost use Rattle.av_text.specs.Words.{is_comma, comma_parts, is_short_numeral, is_comma_form, checked_word, word_in};

use crate::Kind;
use crate::numerals::{is_digits, is_numeral};
use arrayvec::ArrayVec;
use av_perm::{MAX_LENGTH, Perm};

/// Whether a part is a numeral of one to three digits.
fn is_short_numeral(part: &[u8]) -> bool
    ensures { result ≡ is_short_numeral part.now }
{
    is_numeral(part) && part.len() <= 3
}

/// Whether the byte parts numerals.
fn is_comma(byte: u8) -> bool
    ensures { result ≡ is_comma byte }
{
    byte == b','
}

/// How many parts stand between commas.
fn count_parts(token: &[u8]) -> usize
    ensures { result ≡ length (comma_parts token.now) }
{
    token.split(|b| is_comma(*b)).count()
}

/// Whether each part between commas is a numeral of one to three digits.
fn all_short(token: &[u8]) -> bool
    ensures { result ≡ list_all is_short_numeral (comma_parts token.now) }
{
    token
        .split(|b| is_comma(*b))
        .all(|part| is_short_numeral(part))
}

/// Whether the token is two or more numerals of one to three digits, joined by single commas.
#[tactic(auto, unfolding(crate::specs::Words::is_comma_form))]
fn is_comma_form(token: &[u8]) -> bool
    ensures { result ≡ is_comma_form token.now }
{
    count_parts(token) >= 2 && all_short(token)
}

/// The word with these entries, at most `limit`.
#[tactic(auto, unfolding(crate::specs::Words::checked_word))]
fn checked(entries: &[u8], limit: usize) -> Result<Perm, Kind>
    requires { limit ≤ MAX_LENGTH }
    ensures { result ≡ checked_word limit entries.now }
{
    if entries.len() > limit {
        return Err(Kind::LongWord);
    }
    Perm::from_entries(entries).map_err(|_| Kind::BadWord)
}

/// The word whose entries are the digits of the token.
#[tactic(auto, using(crate::proofs::Digits::digits), unfolding(crate::specs::Words::checked_word))]
fn compact_word(token: &[u8], limit: usize) -> Result<Perm, Kind>
    requires limit { limit ≤ MAX_LENGTH }
    requires digits { IsTrue (is_digits token.now) }
    ensures { result ≡ checked_word limit (map (λ b. b - 48) token.now) }
{
    if token.len() > limit {
        return Err(Kind::LongWord);
    }
    let mut entries = ArrayVec::<u8, MAX_LENGTH>::new();
    for digit in token {
        entries.push(*digit - b'0');
    }
    checked(&entries, limit)
}

/// The number that one to three digits write.
#[tactic(auto, using(crate::proofs::Digits::digits, crate::proofs::Shorts::shorts))]
fn short_value(digits: &[u8]) -> u16
    requires { IsTrue (is_short_numeral digits.now) }
    ensures { result ≡ digits_value 10 digits.now }
{
    let mut value: u16 = 0;
    for digit in digits {
        value = value * 10 + u16::from(*digit - b'0');
    }
    value
}

/// The word whose entries are the numerals of the token. An entry above 255 is above their number.
#[tactic(auto, unfolding(crate::specs::Words::checked_word))]
fn comma_word(token: &[u8], limit: usize) -> Result<Perm, Kind>
    requires limit { limit ≤ MAX_LENGTH }
    requires form { IsTrue (is_comma_form token.now) }
    ensures { result ≡ checked_word limit (map (digits_value 10) (comma_parts token.now)) }
{
    if count_parts(token) > limit {
        return Err(Kind::LongWord);
    }
    let mut entries = ArrayVec::<u8, MAX_LENGTH>::new();
    for part in token.split(|b| is_comma(*b)) {
        let Ok(entry) = u8::try_from(short_value(part)) else {
            return Err(Kind::BadWord);
        };
        entries.push(entry);
    }
    checked(&entries, limit)
}

/// The word of at most `most` entries that the token spells, which is at most `MAX_LENGTH`: by its digits, as `213`, or by two or more
/// numerals of at most three digits joined by commas, as `2,1,3`. It takes no memory. `BadWord` says that the token has neither
/// form or its entries aren't the numbers from 1 to their number, `LongWord`, which comes first, that it has one with more
/// entries.
#[tactic(auto, unfolding(crate::specs::Words::word_in, crate::specs::Words::entries_of))]
pub fn read_word(token: &[u8], most: usize) -> Result<Perm, Kind>
    requires { most ≤ MAX_LENGTH }
    ensures { result ≡ word_in most token.now }
{
    if is_digits(token) {
        compact_word(token, most)
    } else if is_comma_form(token) {
        comma_word(token, most)
    } else {
        Err(Kind::BadWord)
    }
}
