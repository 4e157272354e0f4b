// A word in place, seen as its list.
ghost use Rattle.std.specs.Prelude.{◌≡◌, ℕ, ◌+◌, ◌<◌, ◌≤◌, ◌↔◌, List, [], ◌∷◌, length, IsTrue, IsOk, IfOk, IfErr};
ghost use Rattle.av_perm.specs.Word.{is_perm, fault_place, entry, shortlex};

use crate::limits::MAX_LENGTH;
use arrayvec::ArrayVec;
use std::cmp::Ordering;
use std::hash::{Hash, Hasher};
use std::marker::Model;

/// The entries are not a word of length 1 to `MAX_LENGTH`.
#[derive(Clone, Copy, Debug, PartialEq, Eq, thiserror::Error)]
#[error("the entries are no word of length 1 to 160: the fault is at place {at}")]
pub struct NotPerm {
    /// The place of the first entry that is 0, above the length, or equal to an earlier one. Where the length is 0 or
    /// above `MAX_LENGTH`, the length plus 1.
    pub at: usize,
}

/// A word of length 1 to `MAX_LENGTH`, held in place.
#[derive(Drop)]
pub struct Perm {
    entries: ArrayVec<u8, MAX_LENGTH>,
}

impl Model for Perm {
    ghost use Rattle.std.specs.Prelude.{ℕ, List, IsTrue};

    ghost Value = { List ℕ };

    ghost use Rattle.av_perm.specs.Word.{is_perm};

    ghost view = { λ p. p.entries.items };

    ghost invariant = { λ p. IsTrue (is_perm p.entries.items) };
}

impl Perm {
    /// The word with these entries. `NotPerm` comes exactly where they are no word of length 1 to
    /// `MAX_LENGTH`.
    pub fn from_entries(entries: &[u8]) -> Result<Perm, NotPerm>
        ensures which { IsOk result ↔ IsTrue (is_perm entries.now) }
        ensures word { IfOk result (λ word. word ≡ entries.now) }
        ensures at { IfErr result (λ fault. fault.at ≡ fault_place entries.now) }
    {
        let len = entries.len();
        if len == 0 || len > MAX_LENGTH {
            return Err(NotPerm { at: len + 1 });
        }
        for i in 0..len {
            let x = entries[i];
            if x == 0 || x as usize > len || entries[..i].contains(&x) {
                return Err(NotPerm { at: i + 1 });
            }
        }
        let mut copy = ArrayVec::new();
        for x in entries {
            copy.push(*x);
        }
        Ok(Perm { entries: copy })
    }

    /// The word with these entries, which are known to be one.
    pub(crate) fn from_word(entries: ArrayVec<u8, MAX_LENGTH>) -> Perm
        requires { IsTrue (is_perm entries.items) }
        ensures { result ≡ entries.items }
    {
        Perm { entries }
    }

    /// The word 1.
    pub fn one() -> Perm
        ensures { result ≡ 1 ∷ [] }
    {
        let mut entries = ArrayVec::new();
        entries.push(1);
        Perm { entries }
    }

    /// Its length, from 1 to `MAX_LENGTH`.
    pub fn len(&self) -> usize
        ensures value { result ≡ length self.now }
        ensures word { IsTrue (is_perm self.now) }
    {
        self.entries.len()
    }

    /// The entry at a place, from 1 to the length.
    pub fn entry(&self, place: usize) -> u8
        requires low { 1 ≤ place }
        requires high { place ≤ length self.now }
        ensures { result ≡ entry self.now place }
    {
        self.entries.as_slice()[place - 1]
    }

    /// Its entries.
    pub fn as_slice(&self) -> &[u8]
        ensures { result.now ≡ self.now }
    {
        self.entries.as_slice()
    }

    /// An equal word.
    pub fn copy(&self) -> Perm
        ensures { result ≡ self.now }
    {
        Perm {
            entries: self.entries.clone().unwrap(),
        }
    }
}

/// The order of words by length and then lexicographically.
pub fn shortlex(a: &Perm, b: &Perm) -> Ordering
    ensures { result ≡ shortlex a.now b.now }
{
    a.cmp(b)
}

ghost use Rattle.std.specs.Cmp.Lexicographic.{pointwise, nat_list_eq_equiv, nat_list_cmp_total};
ghost use Rattle.std.specs.Cmp.{partial_equiv_from_equiv, partial_order_from_total};
ghost use Rattle.std.specs.Ordering.{as_partial_cmp};
ghost use Rattle.std.specs.Hash as fed;
ghost use Rattle.std.proofs.Common.{ap, nat_eq, refl};
ghost use Rattle.av_perm.specs.WordOrder.{shortlex_total, shortlex_ties, shortlex_partial, word_same};

// Words are equal where their entries are.
impl PartialEq for Perm {
    ghost eq = { pointwise nat_eq };

    ghost laws = { partial_equiv_from_equiv nat_list_eq_equiv };

    fn eq(&self, other: &Perm) -> bool {
        self.entries.as_slice() == other.entries.as_slice()
    }
}

impl Eq for Perm {
    ghost laws = { nat_list_eq_equiv };
}

// By length, then lexicographically.
impl Ord for Perm {
    ghost cmp = { shortlex };

    ghost total = { shortlex_total };

    ghost matches_partial_cmp = { λ _ _. refl };

    ghost matches_eq = { shortlex_ties };

    fn cmp(&self, other: &Perm) -> Ordering {
        self.len()
            .cmp(&other.len())
            .then(self.entries.as_slice().cmp(other.entries.as_slice()))
    }
}

impl PartialOrd for Perm {
    ghost partial_cmp = { as_partial_cmp shortlex };

    ghost laws = { shortlex_partial };

    fn partial_cmp(&self, other: &Perm) -> Option<Ordering> {
        Some(self.cmp(other))
    }
}

impl Hash for Perm {
    ghost hash_input = { fed.slice fed.u8 };

    ghost respects_eq = { λ x y e. ap (fed.slice fed.u8) (word_same x y e) };

    fn hash<H: Hasher>(&self, state: &mut H) {
        self.entries.as_slice().hash(state);
    }
}
