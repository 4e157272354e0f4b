// The words of the command line.
ghost use Rattle.std.specs.Prelude.{◌≡◌, ◌≤◌, true, map, string_bytes, IfOk, IfSome};
ghost use Rattle.std.specs.List.{list_any};
ghost use Rattle.std.specs.Option.{option_map, option_and_then};
ghost use Rattle.clap.specs.Matches.{found_of};
ghost use Rattle.clap.specs.Values.{kind_of};
ghost use Rattle.av_session.specs.Options.{with_defaults, stand_together, set_by, options, AreInRanges, IsAllowed, GivesOptions};
ghost use Rattle.av_session.specs.Command.{value_in, chosen_by, texts_found, is_dashes, is_given};

use crate::command::matches;
use av_build::MAX_SIZE;
use av_perm::MAX_ROOT_LENGTH;
use av_simple::LEAST_LIMIT;
use av_text::{MAX_DEMO, number_in};
use clap::error::ErrorKind;
use clap::{ArgMatches, Error};
use std::alloc::Global;

/// The least limit of the lengths at which simple words are searched.
pub const LEAST_MAX_SIMPLE: usize = LEAST_LIMIT;

/// The greatest limit of these lengths.
pub const GREATEST_MAX_SIMPLE: usize = MAX_ROOT_LENGTH;

/// The limit of these lengths where no word sets it.
pub const DEFAULT_MAX_SIMPLE: usize = 8;

/// The greatest limit of the size of a system, its equations and terms together. The least is 1.
pub const GREATEST_MAX_SIZE: usize = MAX_SIZE;

/// The limit of the size where no word sets it.
pub const DEFAULT_MAX_SIZE: usize = 20_000;

/// What the words of the command line set.
#[derive(Clone, Copy, Debug, PartialEq, Eq)]
pub struct Options {
    /// The greatest length at which simple words are searched, from `LEAST_MAX_SIMPLE` to `GREATEST_MAX_SIMPLE`.
    pub max_simple: usize,
    /// The greatest size of a system, its equations and terms together, from 1 to `GREATEST_MAX_SIZE`.
    pub max_size: usize,
    /// The number of the demo script that stands in place of the source, up to 99,999. There is none where `check` is true.
    pub demo: Option<u32>,
    /// Whether the source holds a claimed system, which is checked, in place of a script.
    pub check: bool,
}

/// Why the words of the command line aren't read.
#[derive(Clone, Copy, Debug, PartialEq, Eq, thiserror::Error)]
pub enum WordsError {
    /// Memory is wanting.
    #[error("memory is wanting")]
    Memory,
    /// The words aren't accepted.
    #[error("the words of the command line are not accepted")]
    Words,
}

/// The values that were set.
#[derive(Clone, Copy)]
struct Chosen {
    max_simple: Option<usize>,
    max_size: Option<usize>,
    demo: Option<u32>,
    check: bool,
}

/// Whether the word is `--`.
fn is_dashes(word: &String) -> bool
    ensures { result ≡ is_dashes (string_bytes word.now) }
{
    word.as_bytes() == b"--".as_slice()
}

/// Whether a word is `--`, which stands for no option, and which clap would take for the end of the options.
fn has_dashes(words: &[String]) -> bool
    ensures { result ≡ list_any (λ word. is_dashes (string_bytes word)) words.now }
{
    words.iter().any(is_dashes)
}

/// The number that an option was given, a numeral from low to high, if it was given any.
fn value_in(value: Option<&str>, low: usize, high: usize) -> Option<Option<usize>>
    ensures said { result ≡ value_in low high (option_map (λ s. s.now) value.entry) }
    ensures within { IfSome result (λ number. IfSome number (λ n. (low ≤ n) × (n ≤ high))) }
{
    match value {
        None => Some(None),
        Some(text) => match number_in(text.as_bytes(), low as u128, high as u128) {
            Ok(number) => Some(Some(number as usize)),
            Err(_) => None,
        },
    }
}

/// Whether an option without a value was given, by the text that clap keeps of it.
fn is_given(text: Option<&str>) -> bool
    ensures { result ≡ is_given (option_map (λ s. s.now) text.entry) }
{
    match text {
        Some(given) => given == "true",
        None => false,
    }
}

/// What the values that clap found set, where each is within its range.
fn values(matches: &ArgMatches<'_>) -> Option<Chosen>
    ensures said { result ≡ chosen_by (texts_found (found_of matches.now)) }
    ensures ranges { IfSome result AreInRanges }
{
    let simple = matches.get_str("max-simple");
    let max_simple = value_in(simple, LEAST_MAX_SIMPLE, GREATEST_MAX_SIMPLE)?;
    let max_size = value_in(matches.get_str("max-size"), 1, GREATEST_MAX_SIZE)?;
    let demo = value_in(matches.get_str("demo"), 0, MAX_DEMO as usize)?;
    Some(Chosen {
        max_simple,
        max_size,
        demo: demo.map(|g| g as u32),
        check: is_given(matches.get_str("check")),
    })
}

/// Whether the options chosen may stand together: `--check` stands neither with `--demo` nor with `--max-size`.
fn stand_together(chosen: &Chosen) -> bool
    ensures { result ≡ stand_together chosen.now }
{
    !(chosen.check && (chosen.demo.is_some() || chosen.max_size.is_some()))
}

/// What was chosen, and the defaults of the others.
fn with_defaults(chosen: Chosen) -> Options
    requires ranges { AreInRanges chosen }
    requires together { stand_together chosen ≡ true }
    ensures said { result ≡ with_defaults chosen }
    ensures allowed { IsAllowed result }
{
    Options {
        max_simple: chosen.max_simple.unwrap_or(DEFAULT_MAX_SIMPLE),
        max_size: chosen.max_size.unwrap_or(DEFAULT_MAX_SIZE),
        demo: chosen.demo,
        check: chosen.check,
    }
}

/// The options that were chosen, where they may stand together.
fn set_by(chosen: Chosen) -> Option<Options>
    requires { AreInRanges chosen }
    ensures said { result ≡ set_by chosen }
    ensures allowed { IfSome result IsAllowed }
{
    if stand_together(&chosen) {
        Some(with_defaults(chosen))
    } else {
        None
    }
}

/// The options that the values that clap found set.
fn options_found(matches: &ArgMatches<'_>) -> Option<Options>
    ensures said { result ≡ option_and_then set_by (chosen_by (texts_found (found_of matches.now))) }
    ensures allowed { IfSome result IsAllowed }
{
    set_by(values(matches)?)
}

/// What an error of clap is here. Its text isn't printed.
fn refusal(error: &Error) -> WordsError
    ensures { result ≡ WordsError.Words → kind_of error.now ≡ ErrorKind.OutOfMemory → ⊥ }
{
    if matches!(error.kind(), ErrorKind::OutOfMemory) {
        WordsError::Memory
    } else {
        WordsError::Words
    }
}

/// What the words of the command line set: `--max-simple K`, with K a numeral from 5 to 10, by default 8, `--max-size L`,
/// with L a numeral from 1 to 65536, by default 20000, `--demo G`, with G a numeral from 0 to 99999, and `--check`, which takes
/// no value and stands neither with `--demo` nor with `--max-size`. The options come in any order, each at most once, and each
/// that takes a value may be one word, as `--max-simple=K`. `Words` comes exactly where they are no such words.
#[tactic(auto, unfolding(crate::specs::Options::options))]
pub fn read_words(alloc: Global, words: &[String]) -> Result<Options, WordsError>
    ensures said { GivesOptions result (options (map string_bytes words.now)) }
    ensures allowed { IfOk result IsAllowed }
{
    if has_dashes(words) {
        return Err(WordsError::Words);
    }
    match matches(alloc, words) {
        Ok(found) => match options_found(&found) {
            Some(options) => Ok(options),
            None => Err(WordsError::Words),
        },
        Err(error) => Err(refusal(&error)),
    }
}
