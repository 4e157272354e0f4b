// The lists of sizes of a term's children, one after another.
ghost use Rattle.std.specs.Prelude.{◌≡◌, ◌<◌, ◌≤◌, ◌+◌, ◌-◌, ◌*◌, [], ◌∷◌, ◌++◌, ◌↔◌, ℕ, List, IsTrue, false, length, drop, take, slice_index_or, MatchOption};
ghost use Rattle.av_perm.specs.declared.limits.TheConstants.{MAX_ROOT_LENGTH};
ghost use Rattle.av_perm.specs.Lists.{size_lists};
ghost use Rattle.av_sys.specs.Terms.{terms_at, term_at, children_of};
ghost use Rattle.av_count.specs.Counts.{capped};
ghost use Rattle.av_count.specs.Choices.{ways, ahead};
ghost use Rattle.av_sys.specs.TreeLists.{count_at};
ghost use Rattle.av_tree.specs.Picks.{Sized};
ghost use Rattle.av_list.specs.Sizes.{sum_of, weight, weighed, sizes_after, Firsts, Raised, Begun};

use crate::vertex::Sizes;
use av_count::{Count, Table};
use av_perm::MAX_LENGTH;
use av_sys::Children;
use av_tree::{Cut, choose_size, rest_count};

// A term with children, and the table of the numbers of their trees.
#[derive(Clone, Copy)]
pub struct NodeTerm<'a> {
    pub table: &'a Table,
    pub children: &'a Children,
    pub equation: usize,
    pub term: usize,
    ghost equation_known: { equation < length table.now.system.equations },
    ghost term_known: { term < length (terms_at table.now.system equation) },
    ghost node: { children_of (term_at table.now.system equation term) ≡ children.now },
    ghost known: { (k : ℕ) → k < length children.now → slice_index_or children.now k 0 < length table.now.system.equations },
    ghost few: { length children.now ≤ MAX_ROOT_LENGTH },
}

// Whether the number is not 0.
fn is_some(count: Count) -> bool
    ensures { (x : ℕ) → count ≡ capped x → IsTrue result ↔ 0 < x }
{
    !count.is_zero()
}

// Whether there are trees for child i and for the children after it where child i has a size.
fn leaves_lists(node: &NodeTerm, i: usize, size: usize, at: usize) -> bool
    requires i { i < length node.now.children.now }
    requires most { size ≤ node.now.table.now.largest }
    requires at { at ≤ size }
    ensures { IsTrue result ↔ 0 < count_at node.now.table.now.system (slice_index_or node.now.children.now i 0) at * ways (count_at node.now.table.now.system) (drop (i + 1) node.now.children.now) (size - at) }
{
    let child = node.children.equation(i);
    let number = node.table.get(child, at);
    let here = is_some(number);
    let rest = is_some(rest_count(
        node.table,
        node.children,
        node.equation,
        node.term,
        i,
        size - at,
    ));
    here && rest
}

// The first size of the last child from `least` on that leaves a tree: it can only take all that is left.
fn last_size(node: &NodeTerm, i: usize, size: usize, least: usize) -> Option<usize>
    requires i { i + 1 ≡ length node.now.children.now }
    requires most { size ≤ node.now.table.now.largest }
    requires one { 1 ≤ least }
    requires least { least ≤ size + 1 }
    ensures { MatchOption result (ahead (count_at node.now.table.now.system (slice_index_or node.now.children.now i 0)) (ways (count_at node.now.table.now.system) (drop (i + 1) node.now.children.now)) size least (size + 1 - least) ≡ 0) (λ at. Raised (count_at node.now.table.now.system (slice_index_or node.now.children.now i 0)) (ways (count_at node.now.table.now.system) (drop (i + 1) node.now.children.now)) size least at) }
{
    if least > size {
        return None;
    }
    if leaves_lists(node, i, size, size) {
        return Some(size);
    }
    None
}

// The first size of child i from `least` on that leaves trees for it and for the children after it.
fn search_size(node: &NodeTerm, i: usize, size: usize, least: usize) -> Option<usize>
    requires i { i < length node.now.children.now }
    requires most { size ≤ node.now.table.now.largest }
    requires one { 1 ≤ least }
    requires least { least ≤ size + 1 }
    ensures { MatchOption result (ahead (count_at node.now.table.now.system (slice_index_or node.now.children.now i 0)) (ways (count_at node.now.table.now.system) (drop (i + 1) node.now.children.now)) size least (size + 1 - least) ≡ 0) (λ at. Raised (count_at node.now.table.now.system (slice_index_or node.now.children.now i 0)) (ways (count_at node.now.table.now.system) (drop (i + 1) node.now.children.now)) size least at) }
{
    for below in least - 1..size {
        let at = below + 1;
        if leaves_lists(node, i, size, at) {
            return Some(at);
        }
    }
    None
}

// The first size of child i from `least` on that leaves trees for it and for the children after it, if there are any.
fn raise_size(node: &NodeTerm, i: usize, size: usize, least: usize) -> Option<usize>
    requires i { i < length node.now.children.now }
    requires most { size ≤ node.now.table.now.largest }
    requires one { 1 ≤ least }
    requires least { least ≤ size + 1 }
    ensures { MatchOption result (ahead (count_at node.now.table.now.system (slice_index_or node.now.children.now i 0)) (ways (count_at node.now.table.now.system) (drop (i + 1) node.now.children.now)) size least (size + 1 - least) ≡ 0) (λ at. Raised (count_at node.now.table.now.system (slice_index_or node.now.children.now i 0)) (ways (count_at node.now.table.now.system) (drop (i + 1) node.now.children.now)) size least at) }
{
    let len = node.children.len();
    if i + 1 == len {
        return last_size(node, i, size, least);
    }
    search_size(node, i, size, least)
}

// The size of child i and the place among the lists with this size, each `factor` times. At place 0 no numbers are multiplied.
fn first_size(node: &NodeTerm, i: usize, size: usize, factor: Count, r: u128) -> Cut
    requires i { i < length node.now.children.now }
    requires most { size ≤ node.now.table.now.largest }
    requires within { (F : ℕ) × (factor ≡ capped F) × (r < F * ways (count_at node.now.table.now.system) (drop i node.now.children.now) size) }
    ensures { (F : ℕ) → factor ≡ capped F → r < F * ways (count_at node.now.table.now.system) (drop i node.now.children.now) size → Sized node.now.table.now.system (slice_index_or node.now.children.now i 0) (drop (i + 1) node.now.children.now) size F r result.at result.left }
{
    if r == 0 {
        if let Some(at) = raise_size(node, i, size, 1) {
            return Cut { at, left: 0 };
        }
    }
    choose_size(
        node.table,
        node.children,
        node.equation,
        node.term,
        i,
        size,
        factor,
        r,
    )
}

// Appends the first sizes of the children from i on within whose lists of trees the place r lies, each `factor` times, and
// gives what is left of r.
pub fn first_sizes(
    node: &NodeTerm,
    i: usize,
    size: usize,
    factor: Count,
    r: u128,
    sizes: &mut Sizes,
) -> u128
    requires i { i ≤ length node.now.children.now }
    requires most { size ≤ node.now.table.now.largest }
    requires placed { length sizes.old ≡ i }
    requires within { (F : ℕ) × (factor ≡ capped F) × (r < F * ways (count_at node.now.table.now.system) (drop i node.now.children.now) size) }
    ensures { (F : ℕ) → factor ≡ capped F → r < F * ways (count_at node.now.table.now.system) (drop i node.now.children.now) size → (ns : List ℕ) × (sizes.new ≡ sizes.old ++ ns) × Firsts (count_at node.now.table.now.system) (drop i node.now.children.now) size F (size_lists (length (drop i node.now.children.now)) size) r ns result }
{
    let len = node.children.len();
    if i == len {
        return r;
    }
    let cut = first_size(node, i, size, factor, r);
    sizes.push(cut.at);
    let number = node.table.get(node.children.equation(i), cut.at);
    first_sizes(
        node,
        i + 1,
        size - cut.at,
        factor.times(number),
        cut.left,
        sizes,
    )
}

// Moves the sizes of the children from i on to the next ones with the same sum for which there are trees. Where these are the
// last, it takes them away and answers false.
pub fn next_sizes(node: &NodeTerm, i: usize, size: usize, sizes: &mut Sizes) -> bool
    requires i { i ≤ length node.now.children.now }
    requires most { size ≤ node.now.table.now.largest }
    requires size { size ≤ MAX_LENGTH }
    requires placed { length sizes.old ≡ length node.now.children.now }
    requires sum { sum_of (drop i sizes.old) ≡ size }
    requires some { 0 < weight (count_at node.now.table.now.system) (drop i node.now.children.now) (drop i sizes.old) }
    ensures moved { IsTrue result → (ns : List ℕ) × (sizes.new ≡ take i sizes.old ++ ns) × Firsts (count_at node.now.table.now.system) (drop i node.now.children.now) size 1 (sizes_after (drop i sizes.old) size) 0 ns 0 }
    ensures kept { result ≡ false → sizes.new ≡ take i sizes.old }
    ensures ended { result ≡ false → weighed (weight (count_at node.now.table.now.system) (drop i node.now.children.now)) (sizes_after (drop i sizes.old) size) ≡ 0 }
{
    let len = node.children.len();
    if i == len {
        return false;
    }
    let own = sizes.get(i);
    if next_sizes(node, i + 1, size - own, sizes) {
        return true;
    }
    sizes.truncate(i);
    begin_sizes(node, i, size, own + 1, sizes)
}

// Appends the first sizes of the children from i on where that of child i is at least `least`; false where there are none.
fn begin_sizes(node: &NodeTerm, i: usize, size: usize, least: usize, sizes: &mut Sizes) -> bool
    requires i { i < length node.now.children.now }
    requires most { size ≤ node.now.table.now.largest }
    requires size { size ≤ MAX_LENGTH }
    requires one { 1 ≤ least }
    requires least { least ≤ size + 1 }
    requires placed { length sizes.old ≡ i }
    ensures moved { IsTrue result → Begun (count_at node.now.table.now.system) (slice_index_or node.now.children.now i 0) (drop (i + 1) node.now.children.now) size least sizes.old sizes.new }
    ensures kept { result ≡ false → sizes.new ≡ sizes.old }
    ensures ended { result ≡ false → ahead (count_at node.now.table.now.system (slice_index_or node.now.children.now i 0)) (ways (count_at node.now.table.now.system) (drop (i + 1) node.now.children.now)) size least (size + 1 - least) ≡ 0 }
{
    match raise_size(node, i, size, least) {
        None => false,
        Some(at) => {
            sizes.push(at);
            let _left = first_sizes(node, i + 1, size - at, Count::of(1), 0, sizes);
            true
        }
    }
}
