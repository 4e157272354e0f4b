// Bytes, cut at each separator.
ghost use Rattle.std.specs.Prelude.{◌≡◌, ◌≢◌, ◌==◌, ◌↔◌, ℕ, List, [], ◌∷◌, ◌++◌, map, codes, IfOk, IsTrue, MatchOption};
ghost use Rattle.std.specs.List.{slice_split};
ghost use Rattle.av_perm.specs.Members.{In};

use av_perm::Memory;
use std::alloc::Global;

/// The pieces between separators, one more than there are separators.
pub fn cut_at<'a>(alloc: Global, bytes: &'a [u8], separator: u8) -> Result<Vec<&'a [u8]>, Memory>
    ensures { IfOk result (λ found. map (λ piece. piece.now) found.items ≡ slice_split (λ b. b == separator) bytes.entry.now) }
{
    match bytes.split(|b| *b == separator).collect(alloc) {
        Ok(found) => Ok(found),
        Err(_) => Err(Memory),
    }
}

/// Whether the token is this one.
pub fn is(token: &[u8], known: &[u8]) -> bool
    ensures { IsTrue result ↔ (token.now ≡ known.now) }
{
    token == known
}

/// Whether `none` is the only token.
pub fn is_none(tokens: &[&[u8]]) -> bool
    ensures { IsTrue result ↔ (map (λ t. t.now) tokens.now ≡ codes "none" ∷ []) }
{
    match tokens {
        [token] => is(token, b"none"),
        _ => false,
    }
}

/// What follows in a text that begins so.
pub fn after<'a>(text: &'a [u8], front: &[u8]) -> Option<&'a [u8]>
    ensures { MatchOption result ((rest : List ℕ) → text.entry.now ≢ front.entry.now ++ rest) (λ rest. text.entry.now ≡ front.entry.now ++ rest.now) }
{
    text.strip_prefix(front)
}

/// What stands before in a text that ends so.
pub fn before<'a>(text: &'a [u8], back: &[u8]) -> Option<&'a [u8]>
    ensures { MatchOption result ((rest : List ℕ) → text.entry.now ≢ rest ++ back.entry.now) (λ rest. text.entry.now ≡ rest.now ++ back.entry.now) }
{
    text.strip_suffix(back)
}

/// The tokens before the first one that is known, and those after it. None where there is no such token.
pub fn cut_before<'a, 'b>(
    tokens: &'a [&'b [u8]],
    known: &[u8],
) -> Option<(&'a [&'b [u8]], &'a [&'b [u8]])>
    ensures { MatchOption result (In known.entry.now (map (λ t. t.now) tokens.entry.now) → ⊥)
        (λ found.
        (map (λ t. t.now) tokens.entry.now ≡ map (λ t. t.now) found.0.now ++ known.entry.now ∷ map (λ t. t.now) found.1.now)
        × (In known.entry.now (map (λ t. t.now) found.0.now) → ⊥)) }
{
    for (at, token) in tokens.iter().enumerate() {
        if is(token, known) {
            return Some((&tokens[..at], &tokens[at + 1..]));
        }
    }
    None
}
