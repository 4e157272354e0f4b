// The member at a place.
ghost use Rattle.std.specs.Prelude.{◌≡◌, ◌<◌, ◌≤◌, ◌+◌, ◌-◌, ◌*◌, [], ◌∷◌, ◌++◌, ℕ, length, drop, slice_index_or, Some};
ghost use Rattle.av_sys.specs.Terms.{IsWellFormed, terms_at, term_at, children_of};
ghost use Rattle.av_count.specs.Counts.{capped};
ghost use Rattle.av_count.specs.Choices.{ways, ahead, sum_from};
ghost use Rattle.av_sys.specs.TreeLists.{count_at};
ghost use Rattle.av_count.specs.Members.{term_ways};
ghost use Rattle.av_tree.specs.Picks.{Chosen, Sized};

use av_count::{Count, Table, term, terms};
use av_perm::MAX_ROOT_LENGTH;
use av_sys::{Children, System, Term};

// A size and a rank.
#[derive(Clone, Copy, Debug, PartialEq, Eq)]
pub struct Pick {
    pub size: usize,
    pub rank: u128,
}

/// A number and what is left of a place.
#[derive(Clone, Copy, Debug, PartialEq, Eq)]
pub struct Cut {
    pub at: usize,
    pub left: u128,
}

/// How many trees of a size have a term for their root.
pub fn term_count(system: &System, table: &Table, eq: usize, t: usize, size: usize) -> Count
    requires formed { IsWellFormed system.now }
    requires stands { table.now.system ≡ system.now }
    requires eq { eq < length system.now.equations }
    requires t { t < length (terms_at system.now eq) }
    requires most { size ≤ table.now.largest }
    ensures { result ≡ capped (term_ways system.now size (term_at system.now eq t)) }
{
    match term(system, eq, t) {
        Term::Point => {
            if size == 1 {
                Count::Known(1)
            } else {
                Count::Known(0)
            }
        }
        Term::Node { .. } => table.tail(eq, t, 1, size),
    }
}

// The term of the tree at a place, and the place among those of this term.
pub fn choose_term(system: &System, table: &Table, eq: usize, size: usize, r: u128) -> Cut
    requires formed { IsWellFormed system.now }
    requires stands { table.now.system ≡ system.now }
    requires eq { eq < length system.now.equations }
    requires least { 1 ≤ size }
    requires most { size ≤ table.now.largest }
    requires within { r < count_at system.now eq size }
    ensures term { result.at < length (terms_at system.now eq) }
    ensures left { result.left < term_ways system.now size (term_at system.now eq result.at) }
    ensures place { result.left + sum_from (λ t. term_ways system.now size (term_at system.now eq t)) 0 result.at ≡ r }
{
    let count = terms(system, eq);
    let mut at = 0;
    let mut left = r;
    while let Some(less) = term_count(system, table, eq, at, size).past(left) {
        left = less;
        at += 1;
    }
    Cut { at, left }
}

/// How many lists of trees there are for the children of term t after child i, whose sizes sum to a size.
pub fn rest_count(
    table: &Table,
    children: &Children,
    eq: usize,
    t: usize,
    i: usize,
    size: usize,
) -> Count
    requires eq { eq < length table.now.system.equations }
    requires t { t < length (terms_at table.now.system eq) }
    requires node { children_of (term_at table.now.system eq t) ≡ children.now }
    requires i { i < length children.now }
    requires most { size ≤ table.now.largest }
    ensures { result ≡ capped (ways (count_at table.now.system) (drop (i + 1) children.now) size) }
{
    let len = children.len();
    if i + 1 < len {
        table.tail(eq, t, i + 2, size)
    } else if size == 0 {
        Count::Known(1)
    } else {
        Count::Known(0)
    }
}

/// The size of child i and the place among the lists with this size, where `factor` lists stand in front.
pub fn choose_size(
    table: &Table,
    children: &Children,
    eq: usize,
    t: usize,
    i: usize,
    size: usize,
    factor: Count,
    r: u128,
) -> Cut
    requires eq { eq < length table.now.system.equations }
    requires t { t < length (terms_at table.now.system eq) }
    requires node { children_of (term_at table.now.system eq t) ≡ children.now }
    requires known { (k : ℕ) → k < length children.now → slice_index_or children.now k 0 < length table.now.system.equations }
    requires i { i < length children.now }
    requires most { size ≤ table.now.largest }
    requires within { (F : ℕ) × (factor ≡ capped F) × (r < F * ways (count_at table.now.system) (drop i children.now) size) }
    ensures { (F : ℕ) → factor ≡ capped F → r < F * ways (count_at table.now.system) (drop i children.now) size → Sized table.now.system (slice_index_or children.now i 0) (drop (i + 1) children.now) size F r result.at result.left }
{
    let child = children.equation(i);
    let mut at = 1;
    let mut left = r;
    while let Some(less) = sized_count(table, children, eq, t, i, child, size, factor, at).past(
        left,
    ) {
        left = less;
        at += 1;
    }
    Cut { at, left }
}

// How many lists have this size for child i, where `factor` lists stand in front.
pub fn sized_count(
    table: &Table,
    children: &Children,
    eq: usize,
    t: usize,
    i: usize,
    child: usize,
    size: usize,
    factor: Count,
    at: usize,
) -> Count
    requires eq { eq < length table.now.system.equations }
    requires t { t < length (terms_at table.now.system eq) }
    requires node { children_of (term_at table.now.system eq t) ≡ children.now }
    requires child { child < length table.now.system.equations }
    requires i { i < length children.now }
    requires most { size ≤ table.now.largest }
    requires at { at ≤ size }
    ensures { (F : ℕ) → factor ≡ capped F → result ≡ capped (F * count_at table.now.system child at * ways (count_at table.now.system) (drop (i + 1) children.now) (size - at)) }
{
    factor
        .times(table.get(child, at))
        .times(rest_count(table, children, eq, t, i, size - at))
}

// The sizes and ranks of the children from i on, and the place among the `factor` lists in front.
pub fn choose(
    table: &Table,
    children: &Children,
    eq: usize,
    t: usize,
    i: usize,
    size: usize,
    factor: Count,
    r: u128,
    picks: &mut [Pick; MAX_ROOT_LENGTH],
) -> u128
    requires eq { eq < length table.now.system.equations }
    requires t { t < length (terms_at table.now.system eq) }
    requires node { children_of (term_at table.now.system eq t) ≡ children.now }
    requires known { (k : ℕ) → k < length children.now → slice_index_or children.now k 0 < length table.now.system.equations }
    requires few { length children.now ≤ MAX_ROOT_LENGTH }
    requires i { i ≤ length children.now }
    requires most { size ≤ table.now.largest }
    requires within { (F : ℕ) × (factor ≡ capped F) × (r < F * ways (count_at table.now.system) (drop i children.now) size) }
    ensures { (F : ℕ) → factor ≡ capped F → r < F * ways (count_at table.now.system) (drop i children.now) size → Chosen table.now.system (drop i children.now) size F r result (drop i picks.new) }
{
    let len = children.len();
    if i == len {
        return r;
    }
    let cut = choose_size(table, children, eq, t, i, size, factor, r);
    let number = table.get(children.equation(i), cut.at);
    let q = choose(
        table,
        children,
        eq,
        t,
        i + 1,
        size - cut.at,
        factor.times(number),
        cut.left,
        picks,
    );
    let (quotient, rank) = number.split(q);
    picks[i] = Pick { size: cut.at, rank };
    quotient
}
