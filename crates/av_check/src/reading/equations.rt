// Equations.
ghost use Rattle.std.specs.Prelude.{◌≡◌, ◌↔◌, ◌<◌, ◌++◌, codes, map, IfOk, IsTrue};
ghost use Rattle.av_print.specs.Systems.{number_text, sign_text, equation_text};
ghost use Rattle.av_check.specs.Claims.{ArePatterns};
ghost use Rattle.av_check.specs.Reading.{Reads, IsEquationOf, IsSignedEquation, IsAvoidingEquation, made_tokens, named_tokens, equation_tokens};

use crate::reading::numbers::equation_number;
use crate::reading::pieces::{cut_at, cut_before, is};
use crate::reading::terms::terms_of;
use crate::reading::words::words_of;
use av_perm::{Memory, Words};
use av_sys::{Equation, Name, Sign};
use std::alloc::Global;

/// The sign whose text the token is.
fn sign_of(token: &[u8]) -> Option<Sign>
    ensures { Reads (λ s. Unit {0}) sign_text token.now result }
{
    match token {
        [b'C'] => Some(Sign::C),
        [b'P'] => Some(Sign::P),
        [b'M'] => Some(Sign::M),
        _ => None,
    }
}

/// The equation of this sign and these avoided words whose required words and terms have these tokens.
fn avoiding_equation(
    alloc: Global,
    sign: Sign,
    avoid: Words,
    tokens: &[&[u8]],
    count: u32,
) -> Result<Option<Equation>, Memory>
    requires { 0 < count }
    ensures { IfOk result (Reads (IsAvoidingEquation count sign avoid) made_tokens (map (λ t. t.now) tokens.now)) }
{
    let Some((required, made)) = cut_before(tokens, b"=") else {
        return Ok(None);
    };
    let Some(require) = words_of(alloc, required)? else {
        return Ok(None);
    };
    let Some(terms) = terms_of(alloc, made, count)? else {
        return Ok(None);
    };
    let name = Name {
        sign,
        avoid,
        require,
    };
    Ok(Some(Equation { name, terms }))
}

/// The equation of this sign whose words and terms have these tokens.
fn signed_equation(
    alloc: Global,
    sign: Sign,
    tokens: &[&[u8]],
    count: u32,
) -> Result<Option<Equation>, Memory>
    requires { 0 < count }
    ensures { IfOk result (Reads (IsSignedEquation count sign) named_tokens (map (λ t. t.now) tokens.now)) }
{
    let Some((avoided, others)) = cut_before(tokens, b"require") else {
        return Ok(None);
    };
    let Some(avoid) = words_of(alloc, avoided)? else {
        return Ok(None);
    };
    avoiding_equation(alloc, sign, avoid, others, count)
}

/// Whether the token names equation `number` of a system of so many.
fn is_number(token: &[u8], number: u32, count: u32) -> bool
    requires { number < count }
    ensures { IsTrue result ↔ (token.now ≡ number_text number) }
{
    match equation_number(token, count) {
        Some(found) => found == number,
        None => false,
    }
}

/// Whether the first token and the third are those of equation `number` of a system of so many.
fn are_fixed(first: &[u8], third: &[u8], number: u32, count: u32) -> bool
    requires { number < count }
    ensures { IsTrue result ↔ ((first.now ≡ number_text number) × (third.now ≡ codes "avoid")) }
{
    is_number(first, number, count) && is(third, b"avoid")
}

/// Equation `number` of a system of so many, whose line has these tokens.
fn equation_among(
    alloc: Global,
    tokens: &[&[u8]],
    number: u32,
    count: u32,
) -> Result<Option<Equation>, Memory>
    requires { number < count }
    ensures { IfOk result (Reads (IsEquationOf count) (equation_tokens number) (map (λ t. t.now) tokens.now)) }
{
    let [first, second, third, others @ ..] = tokens else {
        return Ok(None);
    };
    if !are_fixed(first, third, number, count) {
        return Ok(None);
    }
    match sign_of(second) {
        Some(sign) => signed_equation(alloc, sign, others, count),
        None => Ok(None),
    }
}

/// Equation `number` of a system of so many, whose line this is.
pub fn equation_of(
    alloc: Global,
    line: &[u8],
    number: u32,
    count: u32,
) -> Result<Option<Equation>, Memory>
    requires { number < count }
    ensures { IfOk result (Reads (IsEquationOf count) (equation_text number) (line.now ++ codes "\n")) }
{
    let tokens = cut_at(alloc, line, b' ')?;
    equation_among(alloc, &tokens, number, count)
}
