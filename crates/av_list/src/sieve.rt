// The items of a lister on which a stored closure answers true.
ghost use Rattle.std.specs.Prelude.{◌≡◌, ℕ, List, IsTrue, length};
ghost use Rattle.std.specs.Fn.{FnReturnsAt};
ghost use Rattle.std.specs.Iterator.{at_most};
ghost use Rattle.av_perm.specs.Word.{is_perm};
ghost use Rattle.av_list.specs.Sieving.{SkipsTo};

use crate::lister::Lister;
use av_perm::Perm;

// Asks the closure.
fn asked<F: Fn(&Perm) -> bool>(keep: &F, word: &Perm) -> bool
    requires { (shown : _) → IsTrue (is_perm shown.now) → F.pre keep.now shown }
    ensures { FnReturnsAt F.Fn keep.now word.now result }
{
    let _len = word.len();
    keep(word)
}

/// The items of a lister on which a closure answers true, in their order. The closure may be any that may be called on every
/// word; it is stored, and stays the same.
#[derive(Drop)]
pub struct Sieve<'a, F> {
    lister: Lister<'a>,
    keep: F,
}

impl<'a, F: Fn(&Perm) -> bool> Sieve<'a, F> {
    /// The items that are left in the lister, without those on which the closure answers false.
    pub fn new(lister: Lister<'a>, keep: F) -> Sieve<'a, F>
        ensures lister { result.lister ≡ lister.entry }
        ensures keep { result.keep ≡ keep }
    {
        Sieve { lister, keep }
    }
}

impl<'a, F: Fn(&Perm) -> bool + Drop> Iterator for Sieve<'a, F> {
    type Item = (u128, Perm);

    ghost can_next = { λ s. (shown : _) → IsTrue (is_perm shown.now) → F.pre s.keep shown };

    ghost next_gives = { λ s r t. SkipsTo (λ x b. FnReturnsAt F.Fn s.keep x b) s.lister r t.lister × (t.keep ≡ s.keep) };

    ghost remaining = { λ s. at_most (length s.lister) };

    fn next(&mut self) -> Option<(u128, Perm)> {
        'walk: while let Some((rank, word)) = self.lister.next() {
            let kept = asked(&self.keep, &word);
            if kept {
                return Some((rank, word));
            }
        }
        None
    }
}
