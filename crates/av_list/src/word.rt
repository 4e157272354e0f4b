// The word of a tree.
ghost use Rattle.std.specs.Prelude.{◌≡◌, ◌<◌, ◌≤◌, ◌+◌, [], ◌∷◌, ◌++◌, ℕ, List, IsTrue, length, reverse, slice_index};
ghost use Rattle.arrayvec.specs.ArrayVec.{array_vec_len};
ghost use Rattle.av_sys.specs.Terms.{IsWellFormed};
ghost use Rattle.av_list.specs.declared.vertex.Due.{Due};
ghost use Rattle.av_list.specs.Sizes.{sum_of};
ghost use Rattle.av_list.specs.Words.{sizes_below, raises, word_of};
ghost use Rattle.av_list.specs.declared.vertex.Vertex.{Vertex};
ghost use Rattle.av_list.specs.Derivations.{Completes, Writing};

use crate::vertex::{Sizes, Vertex};
use arrayvec::ArrayVec;
use av_count::term;
use av_perm::{MAX_LENGTH, Perm};
use av_sys::{System, Term};

// The sum of the sizes of the children whose entry in the root is below entry i.
fn raise_of(root: &Perm, sizes: &Sizes, i: usize) -> usize
    requires i { i < length root.now }
    requires many { length sizes.now ≡ length root.now }
    requires most { sizes_below (slice_index root.now i) root.now sizes.now ≤ MAX_LENGTH }
    ensures { result ≡ sizes_below (slice_index root.now i) root.now sizes.now }
{
    let entries = root.as_slice();
    let own = entries[i];
    let mut sum = 0;
    for j in 0..entries.len() {
        if entries[j] < own {
            sum += sizes.get(j);
        }
    }
    sum
}

// Adds by how much each child is raised, the first last.
fn add_raises(root: &Perm, sizes: &Sizes, raise: usize, out: &mut ArrayVec<usize, MAX_LENGTH>)
    requires many { length sizes.now ≡ length root.now }
    requires most { raise + sum_of sizes.now ≤ MAX_LENGTH }
    requires room { length out.old.items + length root.now ≤ MAX_LENGTH }
    ensures { out.new.items ≡ out.old.items ++ reverse (raises raise root.now sizes.now root.now) }
{
    let len = sizes.len();
    for k in 0..len {
        let i = len - 1 - k;
        out.push(raise + raise_of(root, sizes, i));
    }
}

// Writes what a vertex writes, and raises its children.
fn step(
    system: &System,
    vertex: &Vertex,
    raised: &mut ArrayVec<usize, MAX_LENGTH>,
    out: &mut ArrayVec<u8, MAX_LENGTH>,
)
    requires formed { IsWellFormed system.now }
    requires writing { (xs : List Vertex) × (word : List ℕ) × Writing system.now (reverse raised.old.items) (vertex.now ∷ xs) out.old.items word }
    ensures { (xs : List Vertex) (word : List ℕ) → Writing system.now (reverse raised.old.items) (vertex.now ∷ xs) out.old.items word → Writing system.now (reverse raised.new.items) xs out.new.items word }
{
    if let Some(raise) = raised.pop() {
        match term(system, vertex.equation, vertex.term) {
            Term::Point => out.push((raise + 1) as u8),
            Term::Node { root, .. } => add_raises(root, &vertex.sizes, raise, raised),
        }
    }
}

// The entries of the word of a tree's vertices in preorder.
pub fn entries(system: &System, vertices: &[Vertex], n: usize) -> ArrayVec<u8, MAX_LENGTH>
    requires formed { IsWellFormed system.now }
    requires limit { n ≤ MAX_LENGTH }
    requires completes { Completes system.now (record { equation = 0; size = n } ∷ []) vertices.now }
    ensures { result.items ≡ word_of system.now vertices.now }
{
    let mut out = ArrayVec::new();
    let mut raised: ArrayVec<usize, MAX_LENGTH> = ArrayVec::new();
    raised.push(0);
    for vertex in vertices {
        step(system, vertex, &mut raised, &mut out);
    }
    out
}
