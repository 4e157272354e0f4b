// The bars of a distribution.
ghost use Rattle.std.specs.Prelude.{◌≡◌, ◌<◌, [], ◌∷◌, ◌++◌, length, slice_get, Some, OnOk, OnErr};

use av_perm::Memory;
use std::alloc::Global;
use std::marker::Model;

/// A value of a statistic, and how many words have it.
#[derive(Clone, Copy, Debug, PartialEq, Eq)]
pub struct DistBar {
    pub value: u64,
    pub count: u128,
}

/// The bars of a distribution: values increase, and counts are above 0.
#[derive(Drop)]
pub struct DistBars {
    items: Vec<DistBar>,
}

impl Model for DistBars {
    ghost use Rattle.std.specs.Prelude.{List};
    ghost use Rattle.av_bars.specs.declared.dist_bars.DistBar.{DistBar};

    ghost Value = { List DistBar };

    ghost view = { λ b. b.items.items };
}

impl DistBars {
    /// The empty list. It takes no memory.
    pub fn empty(alloc: Global) -> DistBars
        ensures { result ≡ [] }
    {
        DistBars {
            items: Vec::new(alloc),
        }
    }

    /// The number of bars.
    pub fn len(&self) -> usize
        ensures { result ≡ length self.now }
    {
        self.items.len()
    }

    /// The bar at an index, from 0 on.
    pub fn get(&self, i: usize) -> &DistBar
        requires { i < length self.now }
        ensures { slice_get self.now i ≡ Some result.now }
    {
        &self.items[i]
    }

    /// The bars.
    pub fn as_slice(&self) -> &[DistBar]
        ensures { result.now ≡ self.now }
    {
        self.items.as_slice()
    }

    /// Appends a bar. After `Memory` the list is as before.
    pub fn push(&mut self, bar: DistBar) -> Result<(), Memory>
        ensures ok { OnOk result (self.new ≡ self.old ++ bar ∷ []) }
        ensures err { OnErr result (self.new ≡ self.old) }
    {
        match self.items.push(bar) {
            Ok(()) => Ok(()),
            Err(_) => Err(Memory),
        }
    }
}
