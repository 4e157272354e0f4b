// The place of a word.
ghost use Rattle.std.specs.Prelude.{◌≡◌, ℕ, ◌<◌, ◌≤◌, [], ◌∷◌, length, Some};
ghost use Rattle.av_sys.specs.declared.terms.Term.TheVariants.{Point};
ghost use Rattle.av_sys.specs.Terms.{terms_at, term_at, IsWellFormed};
ghost use Rattle.av_sys.specs.Exact.{MeansAt, NamedUpTo};
ghost use Rattle.av_tree.specs.Picks.{RankedAt};
ghost use Rattle.av_tree.specs.Ranks.{IsRanked};

use crate::placing::{Found, before_term, node_place};
use crate::tops::{find_point, find_top, means};
use av_count::{Count, Table, term};
use av_perm::{MAX_ROOT_LENGTH, Perm};
use av_sys::{System, Term};

/// The place of a word in the list of trees.
#[derive(Clone, Copy, Debug, PartialEq, Eq)]
pub enum Ranked {
    /// It is this, below 2^128.
    At(u128),
    /// It is 2^128 or more.
    Big,
    /// The word is the value of no tree.
    Stranger,
}

/// The place of the word's tree in the list of the trees of equation 0 of its length, for a table that stands for the system
/// and reaches this length, and a system of which each equation generates, up to this length, exactly the words that its name
/// describes, each by one tree. `At` comes exactly where the place is below 2^128, `Big` where it is not, and `Stranger`
/// where the word is the value of no tree of equation 0. It takes no memory. The calls are at most `MAX_LENGTH` deep.
pub fn rank(system: &System, table: &Table, word: &Perm) -> Ranked
    requires stands { table.now.system ≡ system.now }
    requires short { length word.now ≤ table.now.largest }
    requires named { NamedUpTo system.now (length word.now) }
    ensures { IsRanked system.now word.now result }
{
    let _largest = table.largest();
    let _len = word.len();
    if !means(system, 0, word) {
        return Ranked::Stranger;
    }
    match place(system, table, 0, word) {
        Count::Known(r) => Ranked::At(r),
        Count::Over => Ranked::Big,
    }
}

// The place of a word that means the name of an equation, in the list of the equation's words of its length.
fn place(system: &System, table: &Table, eq: usize, word: &Perm) -> Count
    requires formed { IsWellFormed system.now }
    requires stands { table.now.system ≡ system.now }
    requires eq { eq < length system.now.equations }
    requires short { length word.now ≤ table.now.largest }
    requires named { NamedUpTo system.now (length word.now) }
    requires means { MeansAt system.now eq word.now }
    ensures { RankedAt system.now eq (length word.now) word.now result }
{
    if word.len() == 1 {
        return point_place(system, table, eq);
    }
    let known = &system.equations.get(eq).name.avoid;
    // There is one, since the equation generates the word.
    let top = find_top(system, eq, word, known).unwrap();
    let parts = top.blocks.as_slice();
    match term(system, eq, top.term) {
        // A top is a node.
        Term::Point => Count::Over,
        Term::Node { root, children } => {
            let mut founds = [Found {
                size: 0,
                rank: Count::Over,
            }; MAX_ROOT_LENGTH];
            for i in 0..parts.len() {
                let part = parts[i].word();
                let rank = place(system, table, children.equation(i), part);
                founds[i] = Found {
                    size: part.len(),
                    rank,
                };
            }
            node_place(
                system,
                table,
                eq,
                top.term,
                root,
                children,
                word.len(),
                &founds,
            )
        }
    }
}

// The place of the word 1, where the equation has a point.
fn point_place(system: &System, table: &Table, eq: usize) -> Count
    requires formed { IsWellFormed system.now }
    requires stands { table.now.system ≡ system.now }
    requires eq { eq < length system.now.equations }
    requires reaches { 1 ≤ table.now.largest }
    requires point { (t : ℕ) × (t < length (terms_at system.now eq)) × (term_at system.now eq t ≡ Some Point) }
    ensures { RankedAt system.now eq 1 (1 ∷ []) result }
{
    let t = find_point(system, eq).unwrap();
    before_term(system, table, eq, t, 1)
}
