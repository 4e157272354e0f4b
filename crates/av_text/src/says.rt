// What a line of a script says.
ghost use Rattle.std.specs.Prelude.{◌≡◌, map, IfOk};
ghost use Rattle.av_text.specs.Read.{patterns, patterns_once, basis_said, union_said, require_said, format_said, is_comment, is_basis, is_union, is_require, is_format, tokens_said, line_said};
ghost use Rattle.av_text.specs.Results.{Gives};
ghost use Rattle.av_text.specs.Ranges.{AsksInRange};

use crate::Kind;
use crate::limits::{MAX_FORMAT, MAX_PATTERNS};
use crate::numerals::number_in;
use crate::queries::{Query, query_of};
use crate::tokens::{all_allowed, tokens};
use crate::words::read_word;
use av_perm::{MAX_PATTERN_LENGTH, Memory, Words};
use std::alloc::{AllocError, Global};

/// What the lines so far have said.
#[derive(Clone, Copy)]
pub struct Seen {
    /// A line was a basis line.
    pub basis: bool,
    /// A line was a union line.
    pub union_with: bool,
    /// A line was one of required words.
    pub require: bool,
    /// A line was a format line.
    pub format: bool,
}

/// What a line says.
#[derive(Drop)]
pub enum Says {
    /// The line is passed over.
    Nothing,
    /// The words of the basis, as written.
    Basis(Words),
    /// The words of the union line, as written.
    Unites(Words),
    /// The required words, as written.
    Requires(Words),
    /// The format of the system.
    Formats(u8),
    /// A query.
    Asks(Query),
}

/// Why a line isn't read.
#[derive(Clone, Copy)]
pub enum LineFault {
    /// Memory is wanting.
    Memory,
    /// The line has a fault, of this kind first.
    Refused(Kind),
}

impl From<Kind> for LineFault {
    ghost use Rattle.av_text.specs.declared.says.LineFault.TheVariants.{Refused};

    ghost from_gives = { λ kind fault. fault ≡ Refused kind };

    fn from(kind: Kind) -> LineFault {
        LineFault::Refused(kind)
    }
}

impl From<AllocError> for LineFault {
    ghost use Rattle.av_text.specs.declared.says.LineFault.TheVariants.{Memory};

    ghost from_gives = { λ _ fault. fault ≡ Memory };

    fn from(_error: AllocError) -> LineFault {
        LineFault::Memory
    }
}

impl From<Memory> for LineFault {
    ghost use Rattle.av_text.specs.declared.says.LineFault.TheVariants.{Memory};

    ghost from_gives = { λ _ fault. fault ≡ Memory };

    fn from(_error: Memory) -> LineFault {
        LineFault::Memory
    }
}

/// The words of a basis line, of a union line, or of a line of required words.
fn patterns(alloc: Global, tokens: &[&[u8]]) -> Result<Words, LineFault>
    ensures { Gives result (patterns (map (λ t. t.now) tokens.now)) }
{
    let mut words = Words::empty(alloc);
    for token in tokens {
        let word = read_word(token, MAX_PATTERN_LENGTH)?;
        words.push(word)?;
    }
    Ok(words)
}

/// The same, where `seen` tells that an earlier line was one, which is a fault of the kind `second`.
#[tactic(auto, unfolding(crate::specs::Read::patterns_once))]
fn patterns_once(
    alloc: Global,
    seen: bool,
    second: Kind,
    tokens: &[&[u8]],
) -> Result<Words, LineFault>
    ensures { Gives result (patterns_once seen second (map (λ t. t.now) tokens.now)) }
{
    if seen {
        return Err(LineFault::Refused(second));
    }
    if tokens.len() > MAX_PATTERNS {
        return Err(LineFault::Refused(Kind::ManyWords));
    }
    patterns(alloc, tokens)
}

/// What a basis line says, after lines that said what was seen.
fn basis_said(alloc: Global, seen: Seen, tokens: &[&[u8]]) -> Result<Says, LineFault>
    ensures value { Gives result (basis_said seen (map (λ t. t.now) tokens.now)) }
    ensures range { IfOk result AsksInRange }
{
    Ok(Says::Basis(patterns_once(alloc, seen.basis, Kind::SecondBasis, tokens)?))
}

/// And a union line.
fn union_said(alloc: Global, seen: Seen, tokens: &[&[u8]]) -> Result<Says, LineFault>
    ensures value { Gives result (union_said seen (map (λ t. t.now) tokens.now)) }
    ensures range { IfOk result AsksInRange }
{
    Ok(Says::Unites(patterns_once(alloc, seen.union_with, Kind::SecondUnion, tokens)?))
}

/// And a line of required words.
fn require_said(alloc: Global, seen: Seen, tokens: &[&[u8]]) -> Result<Says, LineFault>
    ensures value { Gives result (require_said seen (map (λ t. t.now) tokens.now)) }
    ensures range { IfOk result AsksInRange }
{
    Ok(Says::Requires(patterns_once(alloc, seen.require, Kind::SecondRequire, tokens)?))
}

/// What a format line says, after lines that said what was seen.
#[tactic(auto, unfolding(crate::specs::Read::format_said))]
fn format_said(seen: Seen, tokens: &[&[u8]]) -> Result<Says, LineFault>
    ensures value { Gives result (format_said seen (map (λ t. t.now) tokens.now)) }
    ensures range { IfOk result AsksInRange }
{
    let [token] = tokens else {
        return Err(LineFault::Refused(Kind::UnknownQuery));
    };
    if seen.format {
        return Err(LineFault::Refused(Kind::SecondFormat));
    }
    Ok(Says::Formats(number_in(token, 1, MAX_FORMAT as u128)? as u8))
}

/// Whether the token begins a comment.
fn is_comment(token: &[u8]) -> bool
    ensures { result ≡ is_comment token.now }
{
    token.starts_with(b"#")
}

/// Whether the token begins a basis line.
fn is_basis(token: &[u8]) -> bool
    ensures { result ≡ is_basis token.now }
{
    token == b"basis".as_slice()
}

/// Whether the token begins a union line.
fn is_union(token: &[u8]) -> bool
    ensures { result ≡ is_union token.now }
{
    token == b"union".as_slice()
}

/// Whether the token begins a line of required words.
fn is_require(token: &[u8]) -> bool
    ensures { result ≡ is_require token.now }
{
    token == b"require".as_slice()
}

/// Whether the token begins a format line.
fn is_format(token: &[u8]) -> bool
    ensures { result ≡ is_format token.now }
{
    token == b"format".as_slice()
}

/// What the tokens of a line say, after lines that said what was seen.
#[tactic(auto, unfolding(crate::specs::Read::tokens_said))]
fn tokens_said(alloc: Global, seen: Seen, tokens: &[&[u8]]) -> Result<Says, LineFault>
    ensures value { Gives result (tokens_said seen (map (λ t. t.now) tokens.now)) }
    ensures range { IfOk result AsksInRange }
{
    match tokens {
        [] => Ok(Says::Nothing),
        [first, ..] if is_comment(first) => Ok(Says::Nothing),
        [first, words @ ..] if is_basis(first) => basis_said(alloc, seen, words),
        [first, words @ ..] if is_union(first) => union_said(alloc, seen, words),
        [first, words @ ..] if is_require(first) => require_said(alloc, seen, words),
        [first, arguments @ ..] if is_format(first) => format_said(seen, arguments),
        [first, arguments @ ..] => Ok(Says::Asks(query_of(first, arguments)?)),
    }
}

/// What a line says, after lines that said what was seen.
#[tactic(auto, unfolding(crate::specs::Read::line_said))]
pub fn line_said(alloc: Global, seen: Seen, line: &[u8]) -> Result<Says, LineFault>
    ensures value { Gives result (line_said seen line.now) }
    ensures range { IfOk result AsksInRange }
{
    if !all_allowed(line) {
        return Err(LineFault::Refused(Kind::BadByte));
    }
    let tokens = tokens(alloc, line)?;
    tokens_said(alloc, seen, &tokens)
}
