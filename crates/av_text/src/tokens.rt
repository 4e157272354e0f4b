// The bytes and the tokens of a line.
ghost use Rattle.std.specs.Prelude.{◌≡◌, ℕ, map, IfOk};
ghost use Rattle.std.specs.List.{list_all};
ghost use Rattle.av_text.specs.Lines.{tokens, is_allowed, is_blank};

use std::alloc::{AllocError, Global};

/// Whether a line may hold the byte.
fn is_allowed(byte: u8) -> bool
    ensures { result ≡ is_allowed byte }
{
    byte == b'\t' || (b' '..=b'~').contains(&byte)
}

/// Whether a line may hold its bytes.
pub fn all_allowed(line: &[u8]) -> bool
    ensures { result ≡ list_all is_allowed line.now }
{
    line.iter().all(|b| is_allowed(*b))
}

/// Whether the byte parts tokens.
fn is_blank(byte: u8) -> bool
    ensures { result ≡ is_blank byte }
{
    byte == b' ' || byte == b'\t'
}

/// The tokens of a line: its longest runs of bytes other than space and tab.
pub fn tokens<'a>(alloc: Global, line: &'a [u8]) -> Result<Vec<&'a [u8]>, AllocError>
    ensures { IfOk result (λ found. map (λ t. t.now) found.items ≡ tokens line.entry.now) }
{
    line.split(|b| is_blank(*b))
        .filter(|t| !t.is_empty())
        .collect(alloc)
}
