// The equations that are kept, numbered in order of appearance.
ghost use Rattle.std.specs.Prelude.{◌≡◌, ◌<◌, ◌≤◌, [], ◌∷◌, length, slice_get, Some, IfOk, OnOk};
ghost use Rattle.av_build.specs.Lean.{with_number, place_of};

use av_perm::Memory;
use av_sys::EquationNumber;
use indexmap::IndexSet;
use std::alloc::Global;
use std::marker::Model;

// Different numbers of equations; the new number of each is its place among them.
#[derive(Drop)]
pub struct KeptList {
    numbers: IndexSet<u32>,
}

impl Model for KeptList {
    ghost use Rattle.std.specs.Prelude.{ℕ, List};

    ghost Value = { List ℕ };

    ghost view = { λ k. k.numbers.keys };
}

impl KeptList {
    // Equation 0 alone.
    pub fn first(alloc: Global) -> Result<KeptList, Memory>
        ensures { IfOk result (λ kept. kept ≡ 0 ∷ []) }
    {
        let mut numbers = IndexSet::new(alloc);
        numbers.insert(0).map_err(|_| Memory)?;
        Ok(KeptList { numbers })
    }

    // How many there are.
    pub fn len(&self) -> usize
        ensures { result ≡ length self.now }
    {
        self.numbers.len()
    }

    // The old number of an equation, by its new one.
    pub fn get(&self, i: usize) -> usize
        requires { i < length self.now }
        ensures { slice_get self.now i ≡ Some result }
    {
        self.numbers[i] as usize
    }

    // Adds an equation, unless it is one of them.
    pub fn add(&mut self, old: EquationNumber) -> Result<(), Memory>
        ensures { OnOk result (self.new ≡ with_number self.old old) }
    {
        match self.numbers.insert(old.0) {
            Ok(_) => Ok(()),
            Err(_) => Err(Memory),
        }
    }

    // The new number of an equation, by its old one, and how many there are where it is none of them.
    pub fn number(&self, old: EquationNumber) -> usize
        ensures value { result ≡ place_of self.now old }
        ensures within { result ≤ length self.now }
    {
        match self.numbers.get_index_of(&old.0) {
            Some(i) => i,
            None => self.numbers.len(),
        }
    }
}
