// The vertices of a derivation tree.
ghost use Rattle.std.specs.Prelude.{◌≡◌, ◌<◌, ◌++◌, [], ◌∷◌, length, slice_index, take};

use arrayvec::ArrayVec;
use av_perm::MAX_ROOT_LENGTH;
use std::marker::Model;

// The sizes of a vertex's subtrees.
#[derive(Drop)]
pub struct Sizes {
    items: ArrayVec<usize, MAX_ROOT_LENGTH>,
}

impl Model for Sizes {
    ghost use Rattle.std.specs.Prelude.{ℕ, List};

    ghost Value = { List ℕ };

    ghost view = { λ s. s.items.items };
}

impl Sizes {
    // No size.
    pub fn empty() -> Sizes
        ensures { result ≡ [] }
    {
        Sizes {
            items: ArrayVec::new(),
        }
    }

    // How many there are.
    pub fn len(&self) -> usize
        ensures { result ≡ length self.now }
    {
        self.items.len()
    }

    // The size at an index.
    pub fn get(&self, i: usize) -> usize
        requires { i < length self.now }
        ensures { result ≡ slice_index self.now i }
    {
        self.items.as_slice()[i]
    }

    // Appends a size.
    pub fn push(&mut self, size: usize)
        requires { length self.old < MAX_ROOT_LENGTH }
        ensures { self.new ≡ self.old ++ size ∷ [] }
    {
        self.items.push(size);
    }

    // Keeps the first n sizes.
    pub fn truncate(&mut self, n: usize)
        ensures { self.new ≡ take n self.old }
    {
        self.items.truncate(n);
    }
}

// The root of a tree or of a subtree: its equation, its term, the size of its tree, and the sizes of its subtrees.
#[derive(Drop)]
pub struct Vertex {
    pub equation: usize,
    pub term: usize,
    pub size: usize,
    pub sizes: Sizes,
}

// An equation and a size of which a tree is due.
#[derive(Clone, Copy, Debug, PartialEq, Eq)]
pub struct Due {
    pub equation: usize,
    pub size: usize,
}
