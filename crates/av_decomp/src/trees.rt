// Decomposition trees.
ghost use Rattle.std.specs.Prelude.{◌≡◌, ℕ, ◌+◌, ◌-◌, ◌<◌, ◌≤◌, ◌++◌, map, length, sum_by, slice_index, slice_get, Some, IfOk};
ghost use Rattle.std.specs.Option.{option_copied};
ghost use Rattle.av_perm.specs.Inflate.{points_below, raised};
ghost use Rattle.av_decomp.specs.RootTrees.{trees_of};
ghost use Rattle.av_decomp.specs.Trees.{IsFormed, IsTreeOf, value, dec, root_length};

use crate::shape::{Shape, block, decompose};
use arrayvec::ArrayVec;
use av_perm::{MAX_LENGTH, Memory, Perm};
use std::alloc::Global;
use std::marker::Model;

/// A tree of roots that stands for a word of at most `MAX_LENGTH` entries: a single point, or a root with a tree for each
/// of its entries.
#[derive(Drop)]
pub struct DecTree {
    root: Option<Perm>,
    blocks: Vec<DecTree>,
    // The length of the word.
    points: u8,
}

// A root has at least two blocks, so a tree is at most 159 deep, which bounds every recursion on one.
impl Model for DecTree {
    ghost use Rattle.std.specs.Prelude.{◌≡◌, length};
    ghost use Rattle.av_decomp.specs.RootTrees.{RootTree, tree_code, as_trees, nodes, nodes_most};
    ghost use Rattle.std.proofs.Common.{arith};

    ghost Value = { RootTree };

    ghost coded = { tree_code };

    ghost use Rattle.av_decomp.specs.Trees.{Keeps};

    ghost view = { λ t. record { root = t.root; blocks = as_trees t.blocks.items } };

    ghost invariant = { λ t. Keeps (record { root = t.root; blocks = as_trees t.blocks.items }) t.points };

    ghost size = { nodes };

    ghost size_decreases = { λ t h. omega (arith, nodes_most t.blocks.items) };
}

/// The decomposition tree of a word: the one tree of roots that stands for the word, where each root is 12, 21 or simple,
/// the first block under 12 is sum-indecomposable, and that under 21 skew-indecomposable. Each block is shorter than its
/// word, so the calls are at most 159 deep.
pub fn tree(alloc: Global, word: &Perm) -> Result<DecTree, Memory>
    ensures value { IfOk result (λ tree. tree ≡ dec word.now) }
    ensures decomposition { IfOk result (IsTreeOf word.now) }
{
    let points = word.len() as u8;
    match decompose(word) {
        Shape::One => Ok(DecTree {
            root: None,
            blocks: Vec::new(alloc),
            points,
        }),
        Shape::Inflated { root, spans } => {
            let mut blocks = Vec::new(alloc);
            for span in spans.as_slice() {
                let part = tree(alloc, &block(word, span))?;
                if blocks.push(part).is_err() {
                    return Err(Memory);
                }
            }
            Ok(DecTree {
                root: Some(root),
                blocks,
                points,
            })
        }
    }
}

impl DecTree {
    /// The word that the tree stands for: a point is the word 1, and a root is inflated by the words of its trees.
    pub fn value(&self) -> Perm
        ensures { result ≡ value self.now }
    {
        let _points = self.points();
        let mut entries = ArrayVec::new();
        self.push_value(&mut entries, 0);
        Perm::from_entries(entries.as_slice()).unwrap()
    }

    /// The root at the top. There is none exactly for the single point.
    pub fn root(&self) -> Option<&Perm>
        ensures root { option_copied result ≡ self.now.root }
        ensures formed { IsFormed self.now }
    {
        self.root.as_ref()
    }

    /// The tree of a block, from 1 to the length of the root.
    pub fn child(&self, i: usize) -> &DecTree
        requires low { 1 ≤ i }
        requires high { i ≤ root_length self.now.root }
        ensures { slice_get (trees_of self.now.blocks) (i - 1) ≡ Some result.now }
    {
        &self.blocks[i - 1]
    }

    // How many points the tree has.
    fn points(&self) -> u8
        ensures points { result ≡ length (value self.now) }
        ensures formed { IsFormed self.now }
    {
        self.points
    }

    // Appends the entries of the word that the tree stands for, each raised.
    fn push_value(&self, entries: &mut ArrayVec<u8, MAX_LENGTH>, raise: u8)
        requires room { length entries.old.items + length (value self.now) ≤ MAX_LENGTH }
        requires low { raise + length (value self.now) ≤ MAX_LENGTH }
        ensures { entries.new.items ≡ entries.old.items ++ raised raise (value self.now) }
    {
        let Some(root) = &self.root else {
            entries.push(raise + 1);
            return;
        };
        for i in 0..root.len() {
            let lower = raise_of(root, &self.blocks, i);
            self.blocks[i].push_value(entries, raise + lower);
        }
    }
}

// How many points the blocks have whose root entry is below that of block i.
fn raise_of(root: &Perm, blocks: &[DecTree], i: usize) -> u8
    requires count { length blocks.now ≡ length root.now }
    requires few { sum_by length (map value blocks.now) ≤ MAX_LENGTH }
    requires within { i < length root.now }
    ensures { result ≡ points_below (slice_index root.now i) root.now (map value blocks.now) }
{
    let entry = root.entry(i + 1);
    let mut lower = 0;
    for k in 0..root.len() {
        if root.entry(k + 1) < entry {
            lower += blocks[k].points();
        }
    }
    lower
}
