// Words, lists of words and roots, each spelt as it is written.
ghost use Rattle.std.specs.Prelude.{◌≡◌, ◌<◌, ◌≤◌, ◌||◌, ◌++◌, length, map, nat_lt, codes, IfOk};
ghost use Rattle.std.specs.List.{list_all};
ghost use Rattle.std.specs.Char.{is_ascii_digit};
ghost use Rattle.av_sys.specs.Terms.{IsSystemRoot};
ghost use Rattle.av_print.specs.Text.{word_text, root_text};
ghost use Rattle.av_text.specs.Ranges.{IsPattern};
ghost use Rattle.av_check.specs.Claims.{ArePatterns};
ghost use Rattle.av_check.specs.Reading.{Reads, list_tokens};

use crate::reading::pieces::{after, before, is_none};
use av_perm::{MAX_PATTERN_LENGTH, Memory, Perm, Words};
use av_sys::is_system_root;
use av_text::read_word;
use std::alloc::Global;

/// The longest word whose text is its digits.
const MAX_COMPACT_LENGTH: usize = 9;

/// Whether each byte is a digit.
fn are_digits(token: &[u8]) -> bool
    ensures { result ≡ list_all is_ascii_digit token.now }
{
    token.iter().all(|b| b.is_ascii_digit())
}

/// Whether a token that is read as the word is its text. A word of at most nine entries is spelt by its digits alone, though it is
/// read in another form too; a longer one has no other form.
fn is_spelt(word: &Perm, token: &[u8]) -> bool
    ensures { result ≡ (nat_lt 9 (length word.now) || list_all is_ascii_digit token.now) }
{
    word.len() > MAX_COMPACT_LENGTH || are_digits(token)
}

/// The word of at most `MAX_PATTERN_LENGTH` entries whose text the token is.
pub fn word_of(token: &[u8]) -> Option<Perm>
    ensures { Reads IsPattern word_text token.now result }
{
    match read_word(token, MAX_PATTERN_LENGTH) {
        Ok(word) if is_spelt(&word, token) => Some(word),
        _ => None,
    }
}

/// The words whose texts the tokens are.
fn each_word(alloc: Global, tokens: &[&[u8]]) -> Result<Option<Words>, Memory>
    ensures { IfOk result (Reads ArePatterns (map word_text) (map (λ t. t.now) tokens.now)) }
{
    let mut words = Words::empty(alloc);
    for token in tokens {
        let Some(word) = word_of(token) else {
            return Ok(None);
        };
        words.push(word)?;
    }
    Ok(Some(words))
}

/// The list of words whose text has these tokens: those of its words, or `none`.
pub fn words_of(alloc: Global, tokens: &[&[u8]]) -> Result<Option<Words>, Memory>
    ensures { IfOk result (Reads ArePatterns list_tokens (map (λ t. t.now) tokens.now)) }
{
    if is_none(tokens) {
        Ok(Some(Words::empty(alloc)))
    } else if tokens.is_empty() {
        Ok(None)
    } else {
        each_word(alloc, tokens)
    }
}

/// The word of at most nine entries whose text the token is.
fn short_word(token: &[u8]) -> Option<Perm>
    ensures { Reads (λ w. IsPattern w × (length w ≤ 9)) word_text token.now result }
{
    let word = word_of(token)?;
    if word.len() <= MAX_COMPACT_LENGTH {
        Some(word)
    } else {
        None
    }
}

/// The longer word whose text the token is.
fn long_word(token: &[u8]) -> Option<Perm>
    ensures { Reads (λ w. IsPattern w × (9 < length w)) word_text token.now result }
{
    let word = word_of(token)?;
    if word.len() > MAX_COMPACT_LENGTH {
        Some(word)
    } else {
        None
    }
}

/// The longer word whose text stands before a closing bracket.
fn closed_word(text: &[u8]) -> Option<Perm>
    ensures { Reads (λ w. IsPattern w × (9 < length w)) (λ w. word_text w ++ codes ")") text.now result }
{
    match before(text, b")") {
        Some(inside) => long_word(inside),
        None => None,
    }
}

/// The word whose text as a root the token is: one of more than nine entries is in round brackets.
fn bracketed_word(token: &[u8]) -> Option<Perm>
    ensures { Reads IsPattern root_text token.now result }
{
    match after(token, b"(") {
        Some(rest) => closed_word(rest),
        None => short_word(token),
    }
}

/// The root of a system whose text the token is.
pub fn root_of(token: &[u8]) -> Option<Perm>
    ensures { Reads IsSystemRoot root_text token.now result }
{
    let word = bracketed_word(token)?;
    if is_system_root(&word) {
        Some(word)
    } else {
        None
    }
}
