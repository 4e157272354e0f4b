// The simple words of a class of one length.
ghost use Rattle.std.specs.Prelude.{◌≤◌, ◌≡◌, IfOk};
ghost use Rattle.av_perm.specs.Gap.{simples};

use av_match::avoids_all;
use av_perm::{Lex, MAX_ROOT_LENGTH, Memory, Words, is_simple};
use std::alloc::Global;

/// The simple words of length `m` of the class, in lexicographic order.
pub fn level(alloc: Global, basis: &Words, m: usize) -> Result<Words, Memory>
    requires some { 1 ≤ m }
    requires few { m ≤ MAX_ROOT_LENGTH }
    ensures { IfOk result (λ words. words ≡ simples basis.now m) }
{
    let mut simples = Words::empty(alloc);
    for word in Lex::new(m) {
        if is_simple(&word) && avoids_all(&word, basis) {
            simples.push(word)?;
        }
    }
    Ok(simples)
}
