// The answers about one member: that at a rank, and the rank of a word.
ghost use Rattle.std.specs.Prelude.{◌≡◌, ◌≤◌, length, slice_get, find};
ghost use Rattle.std.specs.Option.{option_map};
ghost use Rattle.av_perm.specs.Contain.{contains};
ghost use Rattle.av_perm.specs.Relations.{InClassWith};
ghost use Rattle.av_sys.specs.TreeLists.{members};
ghost use Rattle.av_session.specs.Classes.{required_of};
ghost use Rattle.av_session.specs.Answers.{member_count, unranked_text, strange_text, first_lacking, place_text, place_among};
ghost use Rattle.av_session.specs.Shown.{unranked_shown, place_shown};

use crate::members::member_count;
use crate::solving::SettledClass;
use av_count::{Count, Table};
use av_io::{Sink, SinkFault};
use av_match::{Places, contains, first_bad};
use av_perm::Perm;
use av_print::{Bytes, Number, Text};
use av_tree::{Ranked, rank, unrank};

/// The member at a rank.
#[derive(Drop)]
pub enum Unranked {
    /// The member.
    Member(Perm),
    /// There are only so many.
    NoneOf(Count),
}

impl Text for Unranked {
    ghost use Rattle.av_session.specs.Shown.{unranked_shown};

    ghost text = { unranked_shown };

    fn put_on<K: Sink>(&self, sink: &mut K) -> Result<(), SinkFault> {
        match self {
            Unranked::Member(word) => word.put_on(sink),
            Unranked::NoneOf(count) => (Bytes(b"none of "), count).put_on(sink),
        }
    }
}

/// The member of length n at a rank.
pub fn word_at(class: &SettledClass, table: &Table, n: usize, r: u128) -> Unranked
    requires stands { table.now.system ≡ class.now.system }
    requires least { 1 ≤ n }
    requires most { n ≤ table.now.largest }
    ensures { unranked_shown result ≡ unranked_text (member_count class.now.system n) (slice_get (members class.now.system n) r) }
{
    match unrank(class.system(), table, n, r) {
        Some(word) => Unranked::Member(word),
        None => Unranked::NoneOf(member_count(table, n)),
    }
}

/// The rank of a word.
#[derive(Drop)]
pub enum Place<'a> {
    /// Its rank.
    At(u128),
    /// It has a rank of 2^128 or more.
    Big,
    /// It contains a word of the basis: the first that it contains, and the places of the first occurrence.
    Bad {
        /// The word of the basis.
        pattern: &'a Perm,
        /// Where it is contained.
        places: Places,
    },
    /// It contains none, and lacks a required word, of which this is the first.
    Lacks(&'a Perm),
}

impl Text for Place<'_> {
    ghost use Rattle.av_session.specs.Shown.{place_shown};

    ghost text = { place_shown };

    fn put_on<K: Sink>(&self, sink: &mut K) -> Result<(), SinkFault> {
        match self {
            Place::At(rank) => Number(*rank).put_on(sink),
            Place::Big => Bytes(b"big").put_on(sink),
            Place::Bad { pattern, places } => {
                (Bytes(b"no "), *pattern, Bytes(b" at "), places).put_on(sink)
            }
            Place::Lacks(pattern) => (Bytes(b"lacks "), *pattern).put_on(sink),
        }
    }
}

/// The first word of a list that a word doesn't contain.
fn first_lacking<'a>(word: &Perm, required: &'a [Perm]) -> Option<&'a Perm>
    ensures { option_map (λ q. q.now) result ≡ first_lacking word.now required.now }
{
    required.iter().find(|pattern| !contains(word, *pattern))
}

/// Why a word isn't a member: the first word of the basis that it contains, and where; or where it contains none the first
/// required word that it lacks.
fn strange<'a>(class: &'a SettledClass, word: &Perm) -> Place<'a>
    requires { InClassWith class.now.subject.found.basis (required_of class.now.subject) word.now → ⊥ }
    ensures { place_shown result ≡ strange_text word.now (find (contains word.now) class.now.subject.found.basis) (first_lacking word.now (required_of class.now.subject)) }
{
    let _len = word.len();
    let subject = class.subject();
    let basis = subject.basis();
    if let Some(bad) = first_bad(word, basis) {
        return Place::Bad {
            pattern: basis.get(bad.index),
            places: bad.places,
        };
    }
    match first_lacking(word, subject.required()) {
        Some(pattern) => Place::Lacks(pattern),
        None => unreachable!(),
    }
}

/// The rank of a word among the members of its length.
pub fn place_of<'a>(class: &'a SettledClass, table: &Table, word: &Perm) -> Place<'a>
    requires stands { table.now.system ≡ class.now.system }
    requires short { length word.now ≤ table.now.largest }
    ensures { place_shown result ≡ place_text class.now word.now (place_among class.now.system word.now) }
{
    let _len = word.len();
    match rank(class.system(), table, word) {
        Ranked::At(r) => Place::At(r),
        Ranked::Big => Place::Big,
        Ranked::Stranger => strange(class, word),
    }
}
