// The place of a list of choices.
ghost use Rattle.std.specs.Prelude.{◌≡◌, ◌<◌, ◌≤◌, ◌+◌, ◌-◌, ◌*◌, ℕ, List, length, drop, slice_index_or, Some};
ghost use Rattle.av_sys.specs.Terms.{IsWellFormed, terms_at, term_at, children_of};
ghost use Rattle.av_count.specs.Counts.{capped};
ghost use Rattle.av_count.specs.Choices.{ways, ahead, sum_from};
ghost use Rattle.av_sys.specs.declared.terms.Term.TheVariants.{Node};
ghost use Rattle.av_perm.specs.Inflate.{inflate};
ghost use Rattle.av_sys.specs.TreeLists.{count_at, members_at};
ghost use Rattle.av_count.specs.Members.{term_ways};
ghost use Rattle.av_tree.specs.Picks.{Fitting, Placed, RankedAt, picked};
ghost use Rattle.av_tree.specs.declared.choosing.Pick.{Pick};
ghost use Rattle.av_tree.specs.Founds.{Alike};

use crate::choosing::{sized_count, term_count};
use av_count::{Count, Table};
use av_perm::{MAX_ROOT_LENGTH, Perm};
use av_sys::{Children, System};

// A size and the count of a rank.
#[derive(Clone, Copy, Debug, PartialEq, Eq)]
pub struct Found {
    pub size: usize,
    pub rank: Count,
}

// The number of lists with a smaller size for child i, where `factor` lists stand in front.
fn smaller(
    table: &Table,
    children: &Children,
    eq: usize,
    t: usize,
    i: usize,
    size: usize,
    factor: Count,
    own: usize,
) -> Count
    requires eq { eq < length table.now.system.equations }
    requires t { t < length (terms_at table.now.system eq) }
    requires node { children_of (term_at table.now.system eq t) ≡ children.now }
    requires known { (k : ℕ) → k < length children.now → slice_index_or children.now k 0 < length table.now.system.equations }
    requires i { i < length children.now }
    requires most { size ≤ table.now.largest }
    requires own { own < size + 1 }
    requires least { 1 ≤ own }
    ensures { (F : ℕ) → factor ≡ capped F → result ≡ capped (F * ahead (count_at table.now.system (slice_index_or children.now i 0)) (ways (count_at table.now.system) (drop (i + 1) children.now)) size 1 (own - 1)) }
{
    let child = children.equation(i);
    let mut sum = Count::of(0);
    for m in 0..own - 1 {
        sum = sum.plus(sized_count(table, children, eq, t, i, child, size, factor, m + 1));
    }
    sum
}

// The place of the choices from child i on, after place q of `factor` lists in front.
pub fn place_of(
    table: &Table,
    children: &Children,
    eq: usize,
    t: usize,
    i: usize,
    size: usize,
    factor: Count,
    q: Count,
    picks: &[Found; MAX_ROOT_LENGTH],
) -> Count
    requires eq { eq < length table.now.system.equations }
    requires t { t < length (terms_at table.now.system eq) }
    requires node { children_of (term_at table.now.system eq t) ≡ children.now }
    requires known { (k : ℕ) → k < length children.now → slice_index_or children.now k 0 < length table.now.system.equations }
    requires few { length children.now ≤ MAX_ROOT_LENGTH }
    requires i { i ≤ length children.now }
    requires most { size ≤ table.now.largest }
    requires fits { (ps : List Pick) × Fitting (count_at table.now.system) (drop i children.now) size ps × Alike (drop i picks.now) ps }
    ensures { (F x : ℕ) (ps : List Pick) → factor ≡ capped F → q ≡ capped x → x < F → Fitting (count_at table.now.system) (drop i children.now) size ps → Alike (drop i picks.now) ps → Placed table.now.system (drop i children.now) size F x ps result }
{
    let len = children.len();
    if i == len {
        return q;
    }
    let pick = picks[i];
    let number = table.get(children.equation(i), pick.size);
    let before = smaller(table, children, eq, t, i, size, factor, pick.size);
    let within = place_of(
        table,
        children,
        eq,
        t,
        i + 1,
        size - pick.size,
        factor.times(number),
        q.times(number).plus(pick.rank),
        picks,
    );
    before.plus(within)
}

// How many trees of a size have one of the first t terms for their root.
pub fn before_term(system: &System, table: &Table, eq: usize, t: usize, size: usize) -> Count
    requires formed { IsWellFormed system.now }
    requires stands { table.now.system ≡ system.now }
    requires eq { eq < length system.now.equations }
    requires t { t ≤ length (terms_at system.now eq) }
    requires most { size ≤ table.now.largest }
    ensures { result ≡ capped (sum_from (λ k. term_ways system.now size (term_at system.now eq k)) 0 t) }
{
    let mut sum = Count::of(0);
    for k in 0..t {
        sum = sum.plus(term_count(system, table, eq, k, size));
    }
    sum
}

// The place of the tree with these choices, among those of its equation and size.
pub fn node_place(
    system: &System,
    table: &Table,
    eq: usize,
    t: usize,
    root: &Perm,
    children: &Children,
    size: usize,
    picks: &[Found; MAX_ROOT_LENGTH],
) -> Count
    requires formed { IsWellFormed system.now }
    requires stands { table.now.system ≡ system.now }
    requires eq { eq < length system.now.equations }
    requires t { t < length (terms_at system.now eq) }
    requires node { term_at system.now eq t ≡ Some (Node root.now children.now) }
    requires most { size ≤ table.now.largest }
    requires fits { (ps : List Pick) × Fitting (count_at system.now) children.now size ps × Alike picks.now ps }
    ensures { (ps : List Pick) → Fitting (count_at system.now) children.now size ps → Alike picks.now ps → RankedAt system.now eq size (inflate root.now (picked (members_at system.now) children.now ps)) result }
{
    let before = before_term(system, table, eq, t, size);
    let within = place_of(
        table,
        children,
        eq,
        t,
        0,
        size,
        Count::of(1),
        Count::of(0),
        picks,
    );
    before.plus(within)
}
