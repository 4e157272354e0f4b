// The words of one length, one after another.
ghost use Rattle.std.specs.Prelude.{◌≡◌, ◌<◌, ◌≤◌, ◌+◌, ◌-◌, ◌^◌, [], ◌∷◌, ℕ, List, IsTrue, IfOk, Some, false, length, drop};
ghost use Rattle.std.specs.Iterator.{YieldsFirst, item_count};
ghost use Rattle.av_perm.specs.Word.{is_perm};
ghost use Rattle.av_sys.specs.Terms.{IsWellFormed};
ghost use Rattle.av_sys.specs.TreeLists.{count_at, members};
ghost use Rattle.av_list.specs.Items.{items_from};
ghost use Rattle.av_list.specs.Words.{word_of};
ghost use Rattle.av_list.specs.Remaining.{listed, left, later, onto};
ghost use Rattle.av_list.specs.Derivations.{Derives};

use crate::derivation::Derivation;
use crate::vertex::Due;
use crate::walk::{complete, retract};
use crate::word::entries;
use av_count::Table;
use av_perm::{MAX_LENGTH, Memory, Perm};
use av_sys::System;
use std::alloc::Global;
use std::marker::Model;

// Places the tree at a rank; false where there is none.
fn place_entry(system: &System, table: &Table, from: u128, derivation: &mut Derivation) -> bool
    requires formed { IsWellFormed system.now }
    requires stands { table.now.system ≡ system.now }
    requires least { 1 ≤ derivation.old.size }
    requires most { derivation.old.size ≤ table.now.largest }
    requires placed { derivation.old.placed ≡ [] }
    requires due { derivation.old.due ≡ [] }
    ensures none { result ≡ false → count_at system.now 0 derivation.old.size ≤ from }
    ensures same { IsTrue result → left system.now derivation.new.placed [] ≡ drop from (listed system.now 0 derivation.old.size) }
    ensures due { IsTrue result → derivation.new.due ≡ [] }
    ensures derives { IsTrue result → Derives system.now derivation.old.size derivation.new.placed [] }
    ensures size { derivation.new.size ≡ derivation.old.size }
{
    let equations = system.equations.len();
    prove!(equations > 0);
    let size = derivation.size();
    if let Some(_past) = table.get(0, size).past(from) {
        return false;
    }
    derivation.push_due(Due { equation: 0, size });
    complete(system, table, from, derivation);
    true
}

// Moves to the next tree; false where there is none. That this is the next entry of the ordered list is the law `next_entry`.
fn advance(system: &System, table: &Table, derivation: &mut Derivation) -> bool
    requires formed { IsWellFormed system.now }
    requires stands { table.now.system ≡ system.now }
    requires least { 1 ≤ derivation.old.size }
    requires limit { derivation.old.size ≤ MAX_LENGTH }
    requires most { derivation.old.size ≤ table.now.largest }
    requires some { 0 < count_at system.now 0 derivation.old.size }
    requires derives { Derives system.now derivation.old.size derivation.old.placed [] }
    requires due { derivation.old.due ≡ [] }
    ensures none { result ≡ false → later system.now derivation.old.placed [] ≡ [] }
    ensures same { IsTrue result → left system.now derivation.new.placed [] ≡ later system.now derivation.old.placed [] }
    ensures due { IsTrue result → derivation.new.due ≡ [] }
    ensures derives { IsTrue result → Derives system.now derivation.old.size derivation.new.placed [] }
    ensures size { derivation.new.size ≡ derivation.old.size }
{
    let moved = retract(system, table, derivation);
    if moved {
        complete(system, table, 0, derivation);
    }
    moved
}

// The word of the tree that is placed.
fn word(system: &System, derivation: &Derivation) -> Perm
    requires formed { IsWellFormed system.now }
    requires limit { derivation.now.size ≤ MAX_LENGTH }
    requires derives { Derives system.now derivation.now.size derivation.now.placed [] }
    requires word { IsTrue (is_perm (word_of system.now (onto derivation.now.placed []))) }
    ensures { result ≡ word_of system.now (onto derivation.now.placed []) }
{
    let written = entries(system, derivation.vertices(), derivation.size());
    Perm::from_entries(written.as_slice()).unwrap()
}

/// The words of the trees of equation 0 of one size, from a rank on, each with its rank. Ranks are numbered from 0, and the
/// last one that an item can have is 2^128 - 1.
///
/// As a value it is the list of the items that are left. The next tree is placed, where there is one.
#[derive(Drop)]
pub struct Lister<'a> {
    system: &'a System,
    table: &'a Table,
    derivation: Derivation,
    rank: u128,
    more: bool,
}

impl<'a> Model for Lister<'a> {
    ghost use Rattle.std.specs.Prelude.{ℕ, List, [], drop, if◌then◌else◌};
    ghost use Rattle.av_sys.specs.TreeLists.{members};
    ghost use Rattle.av_list.specs.Items.{items_from};
    ghost use Rattle.av_list.specs.Listing.{IsListing};

    ghost Value = { List (ℕ × List ℕ) };

    ghost view = { λ l. if l.more then items_from l.rank (drop l.rank (members l.system.now l.derivation.size)) else [] };

    ghost invariant = { λ l. IsListing l.system.now l.table.now l.derivation l.rank l.more };
}

impl<'a> Lister<'a> {
    /// The words of length n, of 1 up to the table's largest size, from rank `from` on, for a table that stands for the system.
    /// All memory that it needs is taken here. `Memory` comes only where that is refused.
    pub fn new(
        alloc: Global,
        system: &'a System,
        table: &'a Table,
        n: usize,
        from: u128,
    ) -> Result<Lister<'a>, Memory>
        requires stands { table.now.system ≡ system.now }
        requires least { 1 ≤ n }
        requires most { n ≤ table.now.largest }
        ensures { IfOk result (λ l. l ≡ items_from from (drop from (members system.entry.now n))) }
    {
        let _largest = table.largest();
        let mut derivation = Derivation::new(alloc, n)?;
        let more = place_entry(system, table, from, &mut derivation);
        Ok(Lister {
            system,
            table,
            derivation,
            rank: from,
            more,
        })
    }
}

impl<'a> Iterator for Lister<'a> {
    type Item = (u128, Perm);

    ghost next_gives = { YieldsFirst (λ l. l) };

    ghost remaining = { item_count (λ l. l) };

    fn next(&mut self) -> Option<(u128, Perm)> {
        if !self.more {
            return None;
        }
        let word = word(self.system, &self.derivation);
        let rank = self.rank;
        match rank.checked_add(1) {
            None => {
                self.more = false;
                Some((rank, word))
            }
            Some(next) => {
                self.rank = next;
                self.more = advance(self.system, self.table, &mut self.derivation);
                Some((rank, word))
            }
        }
    }
}
