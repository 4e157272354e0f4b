// The word of the tree at a place.
ghost use Rattle.std.specs.Prelude.{◌≡◌, ◌<◌, ◌≤◌, ◌+◌, ◌-◌, ◌*◌, [], ◌∷◌, ◌++◌, ℕ, length, drop, map, slice_get, slice_index, slice_index_or, Some};
ghost use Rattle.av_sys.specs.Terms.{IsWellFormed, terms_at, term_at, children_of};
ghost use Rattle.av_sys.specs.TreeLists.{count_at, members_at};
ghost use Rattle.av_sys.specs.TreeLists.{members};
ghost use Rattle.av_tree.specs.Picks.{picks_below};

use crate::choosing::{Pick, choose, choose_term};
use arrayvec::ArrayVec;
use av_count::{Count, Table, term};
use av_perm::{MAX_LENGTH, MAX_ROOT_LENGTH, Perm};
use av_sys::{System, Term};

// The sum of the sizes of the children whose entry in the root is below entry i.
fn raise_of(root: &Perm, picks: &[Pick; MAX_ROOT_LENGTH], i: usize) -> usize
    requires i { i < length root.now }
    requires few { length root.now ≤ MAX_ROOT_LENGTH }
    requires most { picks_below (slice_index root.now i) root.now picks.now ≤ MAX_LENGTH }
    ensures { result ≡ picks_below (slice_index root.now i) root.now picks.now }
{
    let entries = root.as_slice();
    let own = entries[i];
    let mut sum = 0;
    for j in 0..entries.len() {
        if entries[j] < own {
            sum += picks[j].size;
        }
    }
    sum
}

// Appends the word of the tree of an equation and size at a place, each entry raised.
fn push_member(
    system: &System,
    table: &Table,
    eq: usize,
    size: usize,
    r: u128,
    raise: usize,
    out: &mut ArrayVec<u8, MAX_LENGTH>,
)
    requires formed { IsWellFormed system.now }
    requires stands { table.now.system ≡ system.now }
    requires eq { eq < length system.now.equations }
    requires least { 1 ≤ size }
    requires most { size ≤ table.now.largest }
    requires within { r < count_at system.now eq size }
    requires raise { raise + size ≤ MAX_LENGTH }
    requires room { length out.old.items + size ≤ MAX_LENGTH }
    ensures { out.new.items ≡ out.old.items ++ map (λ x. x + raise) (slice_index_or (members_at system.now eq size) r []) }
{
    let cut = choose_term(system, table, eq, size, r);
    match term(system, eq, cut.at) {
        Term::Point => out.push((raise + 1) as u8),
        Term::Node { root, children } => {
            let mut picks = [Pick { size: 0, rank: 0 }; MAX_ROOT_LENGTH];
            let _in_front = choose(
                table,
                children,
                eq,
                cut.at,
                0,
                size,
                Count::Known(1),
                cut.left,
                &mut picks,
            );
            for i in 0..children.len() {
                let pick = picks[i];
                let up = raise + raise_of(root, &picks, i);
                let child = children.equation(i);
                push_member(system, table, child, pick.size, pick.rank, up, out);
            }
        }
    }
}

/// The word of the tree at place r of the list of the trees of equation 0 of size n, for a table that stands for the system
/// and reaches n. There is none exactly where the list ends before. It takes no memory. The calls are at most `MAX_LENGTH` deep.
pub fn unrank(system: &System, table: &Table, n: usize, r: u128) -> Option<Perm>
    requires stands { table.now.system ≡ system.now }
    requires least { 1 ≤ n }
    requires most { n ≤ table.now.largest }
    ensures { result ≡ slice_get (members system.now n) r }
{
    let _largest = table.largest();
    if table.get(0, n).past(r).is_some() {
        return None;
    }
    let mut out = ArrayVec::new();
    push_member(system, table, 0, n, r, 0, &mut out);
    Some(Perm::from_entries(out.as_slice()).unwrap())
}
