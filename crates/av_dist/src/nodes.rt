// The numbers of the words of a node.
ghost use Rattle.std.specs.Prelude.{◌≡◌, ◌<◌, ◌≤◌, ◌+◌, ◌*◌, [], ◌∷◌, ◌++◌, ℕ, length, slice_index_or, OnOk};
ghost use Rattle.arrayvec.specs.ArrayVec.{array_vec_len};
ghost use Rattle.av_perm.specs.declared.limits.TheConstants.{MAX_ROOT_LENGTH};
ghost use Rattle.av_text.specs.declared.limits.TheConstants.{MAX_DISTRIBUTION_LENGTH};
ghost use Rattle.av_dist.specs.Rows.{how_often, IsRowOf, HasRoomFor, Adds, width};
ghost use Rattle.av_dist.specs.Tables.{HasFewTrees, AreFew};
ghost use Rattle.av_dist.specs.Totals.{first_sums, totals_left, node_statistics};

use crate::added::added_by;
use crate::levels::Levels;
use crate::row::Row;
use arrayvec::ArrayVec;
use av_perm::{MAX_ROOT_LENGTH, Memory, Perm};
use av_sys::Children;
use std::alloc::Global;

// A node of the system, and the rows of the sizes below that of its words.
#[derive(Clone, Copy)]
pub struct Node<'a> {
    pub levels: &'a Levels,
    pub root: &'a Perm,
    pub children: &'a Children,
    ghost two: { 2 ≤ length children.now },
    ghost few: { length children.now ≤ MAX_ROOT_LENGTH },
    ghost long: { length root.now ≡ length children.now },
    ghost known: { (k : ℕ) → k < length children.now → slice_index_or children.now k 0 < length levels.now.system.equations },
    ghost most: { levels.now.largest < MAX_DISTRIBUTION_LENGTH },
    ghost bounded: { HasFewTrees levels.now.system levels.now.largest },
}

// The sizes with one more.
fn with_size(sizes: &[u8], size: u8) -> ArrayVec<u8, MAX_ROOT_LENGTH>
    requires { length sizes.now < MAX_ROOT_LENGTH }
    ensures { result.items ≡ sizes.now ++ size ∷ [] }
{
    let mut longer = ArrayVec::new();
    for earlier in sizes {
        longer.push(*earlier);
    }
    longer.push(size);
    longer
}

// Adds the numbers of the words whose first blocks have these sizes and these sums of statistics, and whose last block has the
// size that is left.
fn add_last(node: &Node, sizes: &[u8], sums: &Row, left: usize, out: &mut Row)
    requires last { length sizes.now + 1 ≡ length node.now.children.now }
    requires least { 1 ≤ left }
    requires most { left ≤ node.now.levels.now.largest }
    requires sums { IsRowOf (first_sums node.now.levels.now node.now.children.now sizes.now) sums.now }
    requires room { HasRoomFor (how_often (totals_left node.now.levels.now node.now.root.now node.now.children.now sizes.now left)) out.old }
    ensures { Adds (how_often (totals_left node.now.levels.now node.now.root.now node.now.children.now sizes.now left)) out.old out.new }
{
    let child = node.children.equation(sizes.len());
    let all = with_size(sizes, left as u8);
    let from = added_by(node.levels.kind(), node.root, all.as_slice());
    out.add_product(from, sums, node.levels.row(child, left));
}

// Adds the numbers of the words whose first blocks have these sizes and these sums of statistics, and whose other blocks have
// sizes that sum to `left`.
fn add_blocks(
    alloc: Global,
    node: &Node,
    sizes: &[u8],
    sums: &Row,
    left: usize,
    out: &mut Row,
) -> Result<(), Memory>
    requires child { length sizes.now < length node.now.children.now }
    requires least { 1 ≤ left }
    requires most { left ≤ node.now.levels.now.largest + 1 }
    requires less { 1 ≤ length sizes.now → left ≤ node.now.levels.now.largest }
    requires sums { IsRowOf (first_sums node.now.levels.now node.now.children.now sizes.now) sums.now }
    requires short { length sums.now ≤ width MAX_DISTRIBUTION_LENGTH * (length sizes.now + 1) }
    requires few { AreFew (first_sums node.now.levels.now node.now.children.now sizes.now) left }
    requires room { HasRoomFor (how_often (totals_left node.now.levels.now node.now.root.now node.now.children.now sizes.now left)) out.old }
    ensures { OnOk result (Adds (how_often (totals_left node.now.levels.now node.now.root.now node.now.children.now sizes.now left)) out.old out.new) }
{
    if sizes.len() + 1 == node.children.len() {
        add_last(node, sizes, sums, left, out);
        return Ok(());
    }
    let child = node.children.equation(sizes.len());
    for size in 1..left {
        let row = node.levels.row(child, size);
        // A child that is a point has no other sizes.
        if row.is_zero() {
            continue;
        }
        let longer = with_size(sizes, size as u8);
        let next = sums.times(alloc, row)?;
        add_blocks(alloc, node, longer.as_slice(), &next, left - size, out)?;
    }
    Ok(())
}

// Adds the numbers of the words of a node, one size greater than the rows.
pub fn add_node(alloc: Global, node: &Node, size: usize, out: &mut Row) -> Result<(), Memory>
    requires size { size ≡ node.now.levels.now.largest + 1 }
    requires room { HasRoomFor (how_often (node_statistics node.now.levels.now node.now.root.now node.now.children.now size)) out.old }
    ensures { OnOk result (Adds (how_often (node_statistics node.now.levels.now node.now.root.now node.now.children.now size)) out.old out.new) }
{
    let one = Row::one(alloc)?;
    add_blocks(alloc, node, &[], &one, size, out)
}
