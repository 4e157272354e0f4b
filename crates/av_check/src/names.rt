// Tests of names.
ghost use Rattle.std.specs.Prelude.{◌≡◌, IfOk};
ghost use Rattle.std.specs.List.{list_any};
ghost use Rattle.std.specs.Cmp.Lexicographic.{pointwise};
ghost use Rattle.av_perm.specs.Lists.{same};
ghost use Rattle.av_perm.specs.Contain.{contains};
ghost use Rattle.av_perm.specs.Class.{minimal, top};
ghost use Rattle.av_perm.specs.Word.{ArePerms};
ghost use Rattle.av_build.specs.Canonical.{is_void};
ghost use Rattle.av_check.specs.Verdicts.{required_of, claim_name, leaves_class, is_misnamed, is_wrong_name};

use crate::claim::Claim;
use av_match::{contains, maximal, minimal};
use av_perm::{Memory, Perm, Words};
use av_sys::{Name, Sign};
use std::alloc::Global;

// The maximal required words of a claim but for the word 1.
fn top_required(alloc: Global, claim: &Claim) -> Result<Words, Memory>
    ensures top { IfOk result (λ words. words ≡ (claim_name claim.now).require) }
    ensures words { ArePerms (required_of claim.now) }
{
    match &claim.require {
        Some(required) => {
            // Its length tells that it is a list of words.
            let _required = required.len();
            maximal(alloc, required)
        }
        None => Ok(Words::empty(alloc)),
    }
}

// The name of a claim: the words that avoid the basis and contain the required words.
pub fn claim_name(alloc: Global, claim: &Claim) -> Result<Name, Memory>
    ensures name { IfOk result (λ name. name ≡ claim_name claim.now) }
    ensures words { IfOk result (λ name. ArePerms claim.now.basis × ArePerms (required_of claim.now)) }
{
    // Its length tells that it is a list of words.
    let _basis = claim.basis.len();
    Ok(Name {
        sign: Sign::C,
        avoid: minimal(alloc, &claim.basis)?,
        require: top_required(alloc, claim)?,
    })
}

// Whether the word contains some word of the list.
fn contains_some(word: &Perm, words: &Words) -> bool
    ensures { result ≡ list_any (contains word.now) words.now }
{
    words.as_slice().iter().any(|other| contains(word, other))
}

// Whether some required word of the name contains an avoided one: then no word is described by it.
pub fn is_void(name: &Name) -> bool
    ensures { result ≡ is_void name.now }
{
    name.require
        .as_slice()
        .iter()
        .any(|word| contains_some(word, &name.avoid))
}

// Whether the list is that of its minimal words.
fn is_minimal(alloc: Global, words: &Words) -> Result<bool, Memory>
    ensures { IfOk result (λ same_words. same_words ≡ pointwise same (minimal words.now) words.now) }
{
    let least = minimal(alloc, words)?;
    Ok(&least == words)
}

// Whether the list is that of its maximal words but for the word 1.
fn is_top(alloc: Global, words: &Words) -> Result<bool, Memory>
    ensures { IfOk result (λ same_words. same_words ≡ pointwise same (top words.now) words.now) }
{
    let most = maximal(alloc, words)?;
    Ok(&most == words)
}

// Whether some avoided word of the claim's name contains no avoided word of the name.
fn leaves_class(first: &Name, name: &Name) -> bool
    ensures { result ≡ leaves_class first.now name.now }
{
    first
        .avoid
        .as_slice()
        .iter()
        .any(|word| !contains_some(word, &name.avoid))
}

// Whether no equation may have the name.
fn is_misnamed(alloc: Global, first: &Name, name: &Name) -> Result<bool, Memory>
    ensures { IfOk result (λ misnamed. misnamed ≡ is_misnamed first.now name.now) }
{
    if !is_minimal(alloc, &name.avoid)? {
        return Ok(true);
    }
    if !is_top(alloc, &name.require)? {
        return Ok(true);
    }
    Ok(is_void(name) || leaves_class(first, name))
}

// Whether the equation with this number may not have the name.
pub fn is_wrong_name(
    alloc: Global,
    first: &Name,
    number: usize,
    name: &Name,
) -> Result<bool, Memory>
    ensures { IfOk result (λ wrong. wrong ≡ is_wrong_name first.now number name.now) }
{
    if number == 0 && name != first {
        return Ok(true);
    }
    is_misnamed(alloc, first, name)
}
