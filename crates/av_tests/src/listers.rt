// Lists that are known.
ghost use Rattle.std.specs.Prelude.{◌≡◌, ◌≤◌, IfOk, drop, take};
ghost use Rattle.av_sys.specs.Terms.{IsWellFormed};
ghost use Rattle.av_sys.specs.TreeLists.{members};
ghost use Rattle.av_list.specs.Items.{items_from};

use crate::system_parts::binary;
use crate::words::word;
use av_count::Table;
use av_list::{Lister, Sieve};
use av_perm::{Memory, Perm};
use av_sys::System;
use std::alloc::Global;
use std::test::Fail;

// At most so many items from a rank on: how a `for` goes over a lister.
fn first_items(
    alloc: Global,
    system: &System,
    table: &Table,
    n: usize,
    from: u128,
    many: usize,
) -> Result<Vec<(u128, Perm)>, Memory>
    requires stands { table.now.system ≡ system.now }
    requires least { 1 ≤ n }
    requires most { n ≤ table.now.largest }
    ensures { IfOk result (λ all. all.items ≡ take many (items_from from (drop from (members system.now n)))) }
{
    let mut all = Vec::new(alloc);
    for item in Lister::new(alloc, system, table, n, from)?.take(many) {
        if all.push(item).is_err() {
            return Err(Memory);
        }
    }
    Ok(all)
}

#[test]
fn the_next_word_comes_across_children_sizes_and_terms(rt: HostRuntime) -> Result<(), Fail> {
    let system = binary(rt.alloc())?;
    if system.check() {
        let table = Table::new(rt.alloc(), &system, 3)?;
        let mut lister = Lister::new(rt.alloc(), &system, &table, 3, 1)?;
        assert!(rt; lister.next() == Some((1, word(&rt, &[1, 3, 2]))));
        assert!(rt; lister.next() == Some((2, word(&rt, &[1, 2, 3]))));
        assert!(rt; lister.next() == Some((3, word(&rt, &[2, 1, 3]))));
        assert!(rt; lister.next() == Some((4, word(&rt, &[3, 1, 2]))));
        assert_eq!(rt; first_items(rt.alloc(), &system, &table, 3, 3, 9)?.len(), 5);
    } else {
        assert!(rt; false);
    }
    Ok(())
}

#[test]
fn a_sieve_gives_what_is_kept_with_its_ranks(rt: HostRuntime) -> Result<(), Fail> {
    let system = binary(rt.alloc())?;
    if system.check() {
        let table = Table::new(rt.alloc(), &system, 3)?;
        let lister = Lister::new(rt.alloc(), &system, &table, 3, 0)?;
        let kept = word(&rt, &[1, 2, 3]);
        let mut sieve = Sieve::new(lister, move |shown: &Perm| *shown == kept);
        assert!(rt; sieve.next() == Some((0, word(&rt, &[1, 2, 3]))));
        assert!(rt; sieve.next() == Some((2, word(&rt, &[1, 2, 3]))));
        assert!(rt; sieve.next() == None);
    } else {
        assert!(rt; false);
    }
    Ok(())
}

// How many items come from a rank on of the trees of size 3, which are 8.
fn count_from(alloc: Global, system: &System, from: u128) -> Result<usize, Memory>
    requires { IsWellFormed system.now }
{
    let table = Table::new(alloc, system, 3)?;
    Ok(first_items(alloc, system, &table, 3, from, 9)?.len())
}

#[test]
fn a_list_ends_after_its_last_rank(rt: HostRuntime) -> Result<(), Fail> {
    let system = binary(rt.alloc())?;
    if system.check() {
        for (from, many) in [(0, 8), (7, 1), (8, 0), (u128::MAX, 0)] {
            assert_eq!(rt; count_from(rt.alloc(), &system, from)?, many);
        }
    } else {
        assert!(rt; false);
    }
    Ok(())
}
