// The bars of a histogram.
ghost use Rattle.std.specs.Prelude.{◌≡◌, ◌<◌, [], ◌∷◌, ◌++◌, length, slice_get, Some, OnOk, OnErr};

use av_perm::Memory;
use std::alloc::Global;
use std::marker::Model;

/// A value, and how many words have it.
#[derive(Clone, Copy, Debug, PartialEq, Eq)]
pub struct Bar {
    pub value: u64,
    pub count: u64,
}

/// The bars of a histogram: values increase, and counts are above 0.
#[derive(Drop)]
pub struct Bars {
    items: Vec<Bar>,
}

impl Model for Bars {
    ghost use Rattle.std.specs.Prelude.{List};
    ghost use Rattle.av_bars.specs.declared.bars.Bar.{Bar};

    ghost Value = { List Bar };

    ghost view = { λ b. b.items.items };
}

impl Bars {
    /// The empty list. It takes no memory.
    pub fn empty(alloc: Global) -> Bars
        ensures { result ≡ [] }
    {
        Bars {
            items: Vec::new(alloc),
        }
    }

    /// The number of bars.
    pub fn len(&self) -> usize
        ensures { result ≡ length self.now }
    {
        self.items.len()
    }

    /// The bar at an index, from 0 on.
    pub fn get(&self, i: usize) -> &Bar
        requires { i < length self.now }
        ensures { slice_get self.now i ≡ Some result.now }
    {
        &self.items[i]
    }

    /// The bars.
    pub fn as_slice(&self) -> &[Bar]
        ensures { result.now ≡ self.now }
    {
        self.items.as_slice()
    }

    /// Appends a bar. After `Memory` the list is as before.
    pub fn push(&mut self, bar: Bar) -> Result<(), Memory>
        ensures ok { OnOk result (self.new ≡ self.old ++ bar ∷ []) }
        ensures err { OnErr result (self.new ≡ self.old) }
    {
        match self.items.push(bar) {
            Ok(()) => Ok(()),
            Err(_) => Err(Memory),
        }
    }
}
