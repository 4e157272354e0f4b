// The numbers of equations and of terms that a system is said to have.
ghost use Rattle.std.specs.Prelude.{◌≡◌, ◌↔◌, [], ◌∷◌, ◌++◌, codes, map, IfOk, IsTrue};
ghost use Rattle.av_check.specs.Reading.{Reads, AreCounts, numerals, counts_tokens, counts_line};

use crate::limits::MAX_CLAIM_SIZE;
use crate::reading::numbers::number_between;
use crate::reading::pieces::{cut_at, is};
use av_perm::Memory;
use std::alloc::Global;

/// The version of a system, how many equations it has, and how many terms they have.
#[derive(Clone, Copy)]
pub struct Counts {
    pub version: u32,
    pub equations: u32,
    pub terms: u32,
}

/// The counts whose numerals these are.
fn numbers_of(version: &[u8], equations: &[u8], terms: &[u8]) -> Option<Counts>
    ensures { Reads AreCounts numerals (version.now ∷ equations.now ∷ terms.now ∷ []) result }
{
    let version = number_between(version, 1, 2)?;
    let equations = number_between(equations, 1, MAX_CLAIM_SIZE)?;
    let terms = number_between(terms, 0, MAX_CLAIM_SIZE - equations)?;
    Some(Counts {
        version,
        equations,
        terms,
    })
}

/// Whether these are the fixed tokens of the line of the counts.
fn are_fixed(first: &[u8], third: &[u8], fifth: &[u8]) -> bool
    ensures { IsTrue result ↔ ((first.now ≡ codes "system") × (third.now ≡ codes "equations") × (fifth.now ≡ codes "terms")) }
{
    is(first, b"system") && is(third, b"equations") && is(fifth, b"terms")
}

/// The counts whose line has these tokens.
fn counts_among(tokens: &[&[u8]]) -> Option<Counts>
    ensures { Reads AreCounts counts_tokens (map (λ t. t.now) tokens.now) result }
{
    let [first, version, third, equations, fifth, terms] = tokens else {
        return None;
    };
    if are_fixed(first, third, fifth) {
        numbers_of(version, equations, terms)
    } else {
        None
    }
}

/// The counts whose line this is.
pub fn counts_of(alloc: Global, line: &[u8]) -> Result<Option<Counts>, Memory>
    ensures { IfOk result (Reads AreCounts counts_line (line.now ++ codes "\n")) }
{
    let tokens = cut_at(alloc, line, b' ')?;
    Ok(counts_among(&tokens))
}
