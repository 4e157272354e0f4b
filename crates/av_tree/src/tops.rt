// The top of the derivation tree of a word: its term, and the blocks that its subtrees stand for.
ghost use Rattle.std.specs.Prelude.{◌≡◌, ◌↔◌, ℕ, ◌<◌, ◌≤◌, List, length, slice_index_or, IsTrue, MatchOption, Some};
ghost use Rattle.av_perm.specs.Class.{avoids_all};
ghost use Rattle.av_perm.specs.Relations.{AreBlocks, IsSimple, inflate};
ghost use Rattle.av_interval.specs.Cuts.{begins_low, begins_high};
ghost use Rattle.av_sys.specs.declared.terms.Term.TheVariants.{Point};
ghost use Rattle.av_sys.specs.Terms.{terms_at, term_at, IsWellFormed};
ghost use Rattle.av_sys.specs.Exact.{MeansAt};
ghost use Rattle.av_tree.specs.Tops.{AllAvoid, AllMean, FitsTerm, FitsNone, FitsAt, IsTop, IsTwoRoot, IsCutAt, HasNoCutTop, HasNoTop};

use crate::blocks::{Block, blocks_of};
use arrayvec::ArrayVec;
use av_count::{term, terms};
use av_decomp::{Shape, decompose, halves};
use av_name::{satisfies, satisfies_besides};
use av_perm::{MAX_ROOT_LENGTH, Perm, Words, skew_root, sum_root};
use av_sys::{Children, System, Term};

// A term of an equation, and the blocks for its children.
#[derive(Drop)]
pub struct Top {
    pub term: usize,
    pub blocks: ArrayVec<Block, MAX_ROOT_LENGTH>,
}

// Whether the word means the name of an equation.
pub fn means(system: &System, eq: usize, word: &Perm) -> bool
    requires { eq < length system.now.equations }
    ensures { IsTrue result ↔ MeansAt system.now eq word.now }
{
    satisfies(&system.equations.get(eq).name, word)
}

// The same of a word that avoids the words known.
fn means_besides(system: &System, eq: usize, known: &Words, word: &Perm) -> bool
    requires eq { eq < length system.now.equations }
    requires avoided { IsTrue (avoids_all known.now word.now) }
    ensures { IsTrue result ↔ MeansAt system.now eq word.now }
{
    satisfies_besides(&system.equations.get(eq).name, known, word)
}

// Whether the blocks, which avoid the words known, mean the names of the children's equations.
fn all_mean(system: &System, children: &Children, known: &Words, blocks: &[Block]) -> bool
    requires known { (k : ℕ) → k < length children.now → slice_index_or children.now k 0 < length system.now.equations }
    requires count { length children.now ≡ length blocks.now }
    requires avoided { AllAvoid known.now blocks.now }
    ensures { IsTrue result ↔ AllMean system.now children.now blocks.now }
{
    for i in 0..blocks.len() {
        let child = children.equation(i);
        if !means_besides(system, child, known, blocks[i].word()) {
            return false;
        }
    }
    true
}

// Whether a term is a node with this root whose children's names the blocks mean.
fn fits_term(
    system: &System,
    eq: usize,
    t: usize,
    known: &Words,
    root: &Perm,
    blocks: &[Block],
) -> bool
    requires formed { IsWellFormed system.now }
    requires eq { eq < length system.now.equations }
    requires t { t < length (terms_at system.now eq) }
    requires count { length blocks.now ≡ length root.now }
    requires avoided { AllAvoid known.now blocks.now }
    ensures { IsTrue result ↔ FitsTerm system.now root.now blocks.now (term_at system.now eq t) }
{
    match term(system, eq, t) {
        Term::Point => false,
        Term::Node {
            root: own,
            children,
        } => own == root && all_mean(system, children, known, blocks),
    }
}

// The first such term of an equation.
fn find_term(
    system: &System,
    eq: usize,
    known: &Words,
    root: &Perm,
    blocks: &[Block],
) -> Option<usize>
    requires formed { IsWellFormed system.now }
    requires eq { eq < length system.now.equations }
    requires count { length blocks.now ≡ length root.now }
    requires avoided { AllAvoid known.now blocks.now }
    ensures { MatchOption result (FitsNone system.now eq root.now blocks.now) (FitsAt system.now eq root.now blocks.now) }
{
    for t in 0..terms(system, eq) {
        if fits_term(system, eq, t, known, root, blocks) {
            return Some(t);
        }
    }
    None
}

// Whether the first k entries of a word are the numbers 1 to k.
fn begins_low(word: &Perm, k: usize) -> bool
    requires { k ≤ length word.now }
    ensures { result ≡ begins_low word.now k }
{
    word.as_slice()[..k].iter().all(|x| *x as usize <= k)
}

// Whether they are the k greatest numbers.
fn begins_high(word: &Perm, k: usize) -> bool
    requires { k ≤ length word.now }
    ensures { result ≡ begins_high word.now k }
{
    let rest = word.len() - k;
    word.as_slice()[..k].iter().all(|x| rest < *x as usize)
}

// Whether the two parts of a word that is cut after k entries inflate 12 or 21 to the word.
fn is_cut(word: &Perm, root: &Perm, k: usize) -> bool
    requires two { IsTwoRoot root.now }
    requires some { 1 ≤ k }
    requires part { k < length word.now }
    ensures { IsTrue result ↔ IsCutAt word.now root.now k }
{
    let _len = word.len();
    if root.entry(1) == 1 {
        begins_low(word, k)
    } else {
        begins_high(word, k)
    }
}

// The top at one cut.
fn find_at(
    system: &System,
    eq: usize,
    word: &Perm,
    known: &Words,
    root: &Perm,
    k: usize,
) -> Option<Top>
    requires formed { IsWellFormed system.now }
    requires eq { eq < length system.now.equations }
    requires avoided { IsTrue (avoids_all known.now word.now) }
    requires two { IsTwoRoot root.now }
    requires some { 1 ≤ k }
    requires part { k < length word.now }
    ensures { MatchOption result (HasNoCutTop system.now eq word.now root.now k) (λ top. IsTop system.now eq word.now top.term top.blocks.items) }
{
    let _len = word.len();
    if !is_cut(word, root, k) {
        return None;
    }
    let blocks = blocks_of(word, &halves(word, k));
    match find_term(system, eq, known, root, blocks.as_slice()) {
        Some(term) => Some(Top { term, blocks }),
        None => None,
    }
}

// The top at the first cut where there is one. Of a canonical system this is the first cut, since the first child of 12 has
// no sums and that of 21 no skew sums; of others it may be a later one.
fn find_cut(system: &System, eq: usize, word: &Perm, known: &Words, root: &Perm) -> Option<Top>
    requires formed { IsWellFormed system.now }
    requires eq { eq < length system.now.equations }
    requires avoided { IsTrue (avoids_all known.now word.now) }
    requires two { IsTwoRoot root.now }
    ensures { MatchOption result ((k : ℕ) → 1 ≤ k → k < length word.now → HasNoCutTop system.now eq word.now root.now k) (λ top. IsTop system.now eq word.now top.term top.blocks.items) }
{
    for k in 1..word.len() {
        let top = find_at(system, eq, word, known, root, k);
        if top.is_some() {
            return top;
        }
    }
    None
}

// The top where the root is simple: its blocks are those of the decomposition.
fn find_simple(system: &System, eq: usize, word: &Perm, known: &Words) -> Option<Top>
    requires formed { IsWellFormed system.now }
    requires eq { eq < length system.now.equations }
    requires avoided { IsTrue (avoids_all known.now word.now) }
    requires long { 2 ≤ length word.now }
    ensures { MatchOption result ((root : List ℕ) (αs : List (List ℕ)) → IsSimple root → AreBlocks root αs → inflate root αs ≡ word.now → FitsNone system.now eq root αs) (λ top. IsTop system.now eq word.now top.term top.blocks.items) }
{
    let _len = word.len();
    let Shape::Inflated { root, spans } = decompose(word) else {
        return None;
    };
    // No root of a system is longer.
    if spans.len() > MAX_ROOT_LENGTH {
        return None;
    }
    let blocks = blocks_of(word, &spans);
    match find_term(system, eq, known, &root, blocks.as_slice()) {
        Some(term) => Some(Top { term, blocks }),
        None => None,
    }
}

// The top of the tree of a word of two or more entries. What the word is known to avoid, its blocks avoid too, so it is not
// looked for again.
pub fn find_top(system: &System, eq: usize, word: &Perm, known: &Words) -> Option<Top>
    requires formed { IsWellFormed system.now }
    requires eq { eq < length system.now.equations }
    requires avoided { IsTrue (avoids_all known.now word.now) }
    requires long { 2 ≤ length word.now }
    ensures { MatchOption result (HasNoTop system.now eq word.now) (λ top. IsTop system.now eq word.now top.term top.blocks.items) }
{
    if let Some(top) = find_cut(system, eq, word, known, &sum_root()) {
        return Some(top);
    }
    if let Some(top) = find_cut(system, eq, word, known, &skew_root()) {
        return Some(top);
    }
    find_simple(system, eq, word, known)
}

// The first point of an equation.
pub fn find_point(system: &System, eq: usize) -> Option<usize>
    requires eq { eq < length system.now.equations }
    ensures { MatchOption result ((t : ℕ) → t < length (terms_at system.now eq) → term_at system.now eq t ≡ Some Point → ⊥) (λ t. (t < length (terms_at system.now eq)) × (term_at system.now eq t ≡ Some Point)) }
{
    for t in 0..terms(system, eq) {
        if is_point(term(system, eq, t)) {
            return Some(t);
        }
    }
    None
}

// Whether a term is the point.
fn is_point(term: &Term) -> bool
    ensures { IsTrue result ↔ (term.now ≡ Point) }
{
    match term {
        Term::Point => true,
        Term::Node { .. } => false,
    }
}
