// A list of words, seen as the list of their lists.
ghost use Rattle.std.specs.Prelude.{◌≡◌, ℕ, ◌<◌, List, [], ◌∷◌, ◌++◌, length, slice_get, Some, OnOk, OnErr, IfOk, All, IsTrue};
ghost use Rattle.av_perm.specs.Word.{ArePerms};

use crate::perm::Perm;
use std::alloc::Global;
use std::hash::{Hash, Hasher};
use std::marker::Model;

/// Memory is wanting.
#[derive(Clone, Copy, Debug, PartialEq, Eq, thiserror::Error)]
#[error("memory is wanting")]
pub struct Memory;

/// A list of words, on an allocator of its own.
#[derive(Drop)]
pub struct Words {
    items: Vec<Perm>,
}

impl Model for Words {
    ghost use Rattle.std.specs.Prelude.{ℕ, List};

    ghost Value = { List (List ℕ) };

    ghost use Rattle.av_perm.specs.Word.{ArePerms};

    ghost view = { λ w. w.items.items };

    ghost invariant = { λ w. ArePerms w.items.items };
}

impl Words {
    /// The empty list. It takes no memory.
    pub fn empty(alloc: Global) -> Words
        ensures { result ≡ [] }
    {
        Words {
            items: Vec::new(alloc),
        }
    }

    /// The number of words.
    pub fn len(&self) -> usize
        ensures value { result ≡ length self.now }
        ensures words { ArePerms self.now }
    {
        self.items.len()
    }

    /// The word at an index, from 0 on.
    pub fn get(&self, i: usize) -> &Perm
        requires { i < length self.now }
        ensures { slice_get self.now i ≡ Some result.now }
    {
        &self.items[i]
    }

    /// Its words.
    pub fn as_slice(&self) -> &[Perm]
        ensures { result.now ≡ self.now }
    {
        &self.items
    }

    /// Appends a word. After `Memory` the list is as before, and the word is dropped.
    pub fn push(&mut self, word: Perm) -> Result<(), Memory>
        ensures ok { OnOk result (self.new ≡ self.old ++ word ∷ []) }
        ensures err { OnErr result (self.new ≡ self.old) }
    {
        let _word = word.len();
        match self.items.push(word) {
            Ok(()) => Ok(()),
            Err(_) => Err(Memory),
        }
    }

    /// An equal list.
    pub fn copy(&self, alloc: Global) -> Result<Words, Memory>
        ensures { IfOk result (λ copy. copy ≡ self.now) }
    {
        let mut copy = Words::empty(alloc);
        for word in &self.items {
            copy.push(word.copy())?;
        }
        Ok(copy)
    }
}

ghost use Rattle.std.specs.Cmp.Lexicographic.{pointwise, nat_list_eq_equiv, lists_equiv};
ghost use Rattle.std.specs.Cmp.{partial_equiv_from_equiv};
ghost use Rattle.std.specs.Hash as fed;
ghost use Rattle.std.proofs.Common.{ap, nat_eq};
ghost use Rattle.av_perm.specs.WordOrder.{words_same};

// Lists are equal where their words are.
impl PartialEq for Words {
    ghost eq = { pointwise (pointwise nat_eq) };

    ghost laws = { partial_equiv_from_equiv (lists_equiv nat_list_eq_equiv) };

    fn eq(&self, other: &Words) -> bool {
        self.items.as_slice() == other.items.as_slice()
    }
}

impl Eq for Words {
    ghost laws = { lists_equiv nat_list_eq_equiv };
}

impl Hash for Words {
    ghost hash_input = { fed.slice (fed.slice fed.u8) };

    ghost respects_eq = { λ x y e. ap (fed.slice (fed.slice fed.u8)) (words_same x y e) };

    fn hash<H: Hasher>(&self, state: &mut H) {
        self.items.as_slice().hash(state);
    }
}
