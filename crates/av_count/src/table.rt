// The numbers of trees and of lists of trees.
ghost use Rattle.std.specs.Prelude.{◌≡◌, ◌<◌, ◌≤◌, ◌+◌, ◌-◌, ℕ, List, Some, None, IfOk, length, drop};
ghost use Rattle.av_sys.specs.Terms.{IsWellFormed, terms_at, term_at, children_of};
ghost use Rattle.av_sys.specs.TreeLists.{count_at};
ghost use Rattle.av_count.specs.Counts.{capped};
ghost use Rattle.av_count.specs.Choices.{ways};
ghost use Rattle.av_count.specs.Members.{tail_at, term_ways};
ghost use Rattle.av_count.specs.Links.{IsLinkOf, AreNumbers};
ghost use Rattle.av_count.specs.Tables.{IsLaidOut, IsFilled, CountsHold, RestsHold};

use crate::count::Count;
use crate::layout::Layout;
use crate::links::{Link, Rest};
use crate::row::{Rows, convolved};
use av_perm::{MAX_LENGTH, Memory};
use av_sys::System;
use std::alloc::Global;
use std::marker::Model;
use std::snapshot::Snapshot;

// The number of the lists of trees of a size for the children of a node, by the rows of smaller sizes.
fn node_value(layout: &Layout, counts: &Rows, rests: &Rows, link: Link, size: usize) -> Count
    requires layout { IsLaidOut layout.now }
    requires size { size ≤ layout.now.largest }
    requires filled { IsFilled layout.now size counts.now rests.now }
    requires node { (cs : List ℕ) × AreNumbers (length layout.now.of.value.equations) cs × IsLinkOf layout.now.links cs link }
    ensures { (cs : List ℕ) → AreNumbers (length layout.now.of.value.equations) cs → IsLinkOf layout.now.links cs link → result ≡ capped (ways (count_at layout.now.of.value) cs size) }
{
    let first = counts.row(link.first);
    match link.rest {
        Rest::Last(eq) => convolved(first, counts.row(eq), size),
        Rest::More(i) => convolved(first, rests.row(i), size),
    }
}

// How many trees of a size have a term for their root, by the rows of smaller sizes.
fn term_value(
    layout: &Layout,
    counts: &Rows,
    rests: &Rows,
    eq: usize,
    t: usize,
    size: usize,
) -> Count
    requires layout { IsLaidOut layout.now }
    requires eq { eq < length layout.now.of.value.equations }
    requires t { t < length (terms_at layout.now.of.value eq) }
    requires size { size ≤ layout.now.largest }
    requires filled { IsFilled layout.now size counts.now rests.now }
    ensures { result ≡ capped (term_ways layout.now.of.value size (term_at layout.now.of.value eq t)) }
{
    match layout.head(eq, t) {
        None => {
            if size == 1 {
                Count::Known(1)
            } else {
                Count::Known(0)
            }
        }
        Some(link) => node_value(layout, counts, rests, link, size),
    }
}

// The number of trees of an equation and size, by the rows of smaller sizes.
fn total(layout: &Layout, counts: &Rows, rests: &Rows, eq: usize, size: usize) -> Count
    requires layout { IsLaidOut layout.now }
    requires eq { eq < length layout.now.of.value.equations }
    requires size { size ≤ layout.now.largest }
    requires filled { IsFilled layout.now size counts.now rests.now }
    ensures { result ≡ capped (count_at layout.now.of.value eq size) }
{
    let mut sum = Count::Known(0);
    for t in 0..layout.terms(eq) {
        sum = sum.plus(term_value(layout, counts, rests, eq, t, size));
    }
    sum
}

// Writes the numbers of trees of a size.
fn fill_counts(layout: &Layout, counts: &mut Rows, rests: &Rows, size: usize)
    requires layout { IsLaidOut layout.now }
    requires size { size ≤ layout.now.largest }
    requires filled { IsFilled layout.now size counts.old rests.now }
    ensures { CountsHold layout.now.of.value (layout.now.largest + 1) (size + 1) counts.new }
{
    for eq in 0..layout.equations() {
        let count = total(layout, counts, rests, eq, size);
        counts.put(eq, size, count);
    }
}

// Writes the numbers of the lists of trees of a size, for the children of each link.
fn fill_rests(layout: &Layout, counts: &Rows, rests: &mut Rows, size: usize)
    requires layout { IsLaidOut layout.now }
    requires size { size ≤ layout.now.largest }
    requires filled { IsFilled layout.now size counts.now rests.old }
    ensures { RestsHold layout.now.of.value layout.now.links (layout.now.largest + 1) (size + 1) rests.new }
{
    for i in 0..layout.links.len() {
        let count = node_value(layout, counts, rests, layout.links.get(i), size);
        rests.put(i, size, count);
    }
}

// The number of the lists of trees of a size for the children of a node from one child on, by the filled rows.
fn tail_value(
    layout: &Layout,
    counts: &Rows,
    rests: &Rows,
    link: Link,
    child: usize,
    size: usize,
) -> Count
    requires layout { IsLaidOut layout.now }
    requires size { size ≤ layout.now.largest }
    requires filled { IsFilled layout.now (size + 1) counts.now rests.now }
    requires least { 1 ≤ child }
    requires node { (cs : List ℕ) × AreNumbers (length layout.now.of.value.equations) cs × IsLinkOf layout.now.links cs link × (child ≤ length cs) }
    ensures { (cs : List ℕ) → AreNumbers (length layout.now.of.value.equations) cs → IsLinkOf layout.now.links cs link → child ≤ length cs → result ≡ capped (ways (count_at layout.now.of.value) (drop (child - 1) cs) size) }
{
    if child == 1 {
        return node_value(layout, counts, rests, link, size);
    }
    match layout.links.after(link.rest, child - 2) {
        Rest::Last(eq) => counts.row(eq).get(size),
        Rest::More(i) => rests.row(i).get(size),
    }
}

/// The numbers of the derivation trees of each equation of a system by size, and of the lists of trees for the children of
/// each term from each child on. It stands for one system and one largest size.
///
/// It has a row of numbers for each equation, and one for each list of the children of a node from the second, the third and
/// so on to the last but one, where two nodes with the same list share it.
#[derive(Drop)]
pub struct Table {
    layout: Layout,
    counts: Rows,
    rests: Rows,
}

impl Model for Table {
    ghost use Rattle.std.specs.Prelude.{◌+◌};
    ghost use Rattle.av_count.specs.Tables.{Stands, Holds};

    ghost Value = { Stands };

    ghost view = { λ t. record { system = t.layout.of.value; largest = t.layout.largest } };

    ghost invariant = { λ t. Holds t.layout t.counts t.rests };
}

impl Table {
    /// The table of a well-formed system for the sizes up to n, which is from 1 to `MAX_LENGTH`.
    pub fn new(alloc: Global, system: &System, n: usize) -> Result<Table, Memory>
        requires formed { IsWellFormed system.now }
        requires least { 1 ≤ n }
        requires most { n ≤ MAX_LENGTH }
        ensures { IfOk result (λ t. (t.system ≡ system.now) × (t.largest ≡ n)) }
    {
        let layout = Layout::new(alloc, system, n)?;
        let mut counts = Rows::new(alloc, system.equations.len(), n + 1)?;
        let mut rests = Rows::new(alloc, layout.links.len(), n + 1)?;
        for size in 1..n + 1 {
            fill_counts(&layout, &mut counts, &rests, size);
            fill_rests(&layout, &counts, &mut rests, size);
        }
        Ok(Table {
            layout,
            counts,
            rests,
        })
    }

    /// The largest size.
    pub fn largest(&self) -> usize
        ensures value { result ≡ self.now.largest }
        ensures least { 1 ≤ result }
        ensures most { result ≤ MAX_LENGTH }
        ensures formed { IsWellFormed self.now.system }
    {
        self.layout.largest
    }

    /// The number of the derivation trees of an equation of a size: `Known` exactly where it is below 2^128.
    pub fn get(&self, eq: usize, size: usize) -> Count
        requires eq { eq < length self.now.system.equations }
        requires size { size ≤ self.now.largest }
        ensures { result ≡ capped (count_at self.now.system eq size) }
    {
        self.counts.row(eq).get(size)
    }

    /// The number of the lists of derivation trees for the children of a term from one child on, whose sizes sum to a size:
    /// `Known` exactly where it is below 2^128.
    pub fn tail(&self, eq: usize, term: usize, child: usize, size: usize) -> Count
        requires eq { eq < length self.now.system.equations }
        requires term { term < length (terms_at self.now.system eq) }
        requires least { 1 ≤ child }
        requires child { child ≤ length (children_of (term_at self.now.system eq term)) }
        requires size { size ≤ self.now.largest }
        ensures { result ≡ capped (tail_at self.now.system eq term child size) }
    {
        match self.layout.head(eq, term) {
            None => Count::Known(0),
            Some(link) => { tail_value(&self.layout, &self.counts, &self.rests, link, child, size) }
        }
    }
}
