// The words that two words cover, one at a time.
ghost use Rattle.std.specs.Prelude.{◌≡◌, ℕ, ◌+◌, ◌*◌, ◌<◌, ◌≤◌, ◌↔◌, List, length};
ghost use Rattle.std.specs.Iterator.{YieldsFirst, item_count};
ghost use Rattle.av_perm.specs.Members.{In};
ghost use Rattle.av_union.specs.Union.{IsCovered};
ghost use Rattle.av_union.specs.Choices.{IsChoice, choices};
ghost use Rattle.av_union.specs.Partials.{MayGrow};
ghost use Rattle.av_union.specs.Nodes.{IsNode, AreNodes, IsNext, TakesChoice};

use crate::choices::{Choice, Choices};
use crate::limits::MAX_OVERLAY_LENGTH;
use crate::partials::Partial;
use arrayvec::ArrayVec;
use av_perm::Perm;
use std::marker::Model;

// A partial overlay, and the choices that it has left.
#[derive(Drop)]
pub(crate) struct Node {
    pub(crate) partial: Partial,
    pub(crate) choices: Choices,
}

impl Node {
    // All choices of a partial overlay are left.
    fn of(partial: Partial) -> Node
        ensures partial { result.partial ≡ partial }
        ensures choices { result.choices ≡ choices (length partial.word) }
    {
        let len = partial.word.len();
        Node {
            partial,
            choices: Choices::of(len),
        }
    }
}

// A blank of an array vector.
impl Default for Node {
    fn default() -> Node {
        Node::of(Partial::of(&Perm::one()))
    }
}

// The partial overlay that grows by a choice, if the pattern may go on so.
fn grown(partial: &Partial, choice: Choice, pattern: &Perm) -> Option<Partial>
    requires choice { IsChoice (length partial.now.word) choice }
    requires few { length partial.now.word < 2 * MAX_OVERLAY_LENGTH }
    requires room { length partial.now.places.items < MAX_OVERLAY_LENGTH }
    ensures { MayGrow pattern.now partial.now choice result }
{
    let grown = partial.grown(choice)?;
    if grown.begins(pattern) {
        Some(grown)
    } else {
        None
    }
}

// Puts a node back after its next choice, and a node for what grows by this choice on top of it. A node without a choice left
// is dropped.
fn take_choice(pattern: &Perm, mut node: Node, nodes: &mut ArrayVec<Node, MAX_OVERLAY_LENGTH>)
    requires few { length pattern.now < MAX_OVERLAY_LENGTH }
    requires nodes { AreNodes pattern.now 0 nodes.old.items }
    requires node { IsNode pattern.now (length nodes.old.items) node }
    requires unfinished { length nodes.old.items < length pattern.now }
    ensures { TakesChoice pattern.now node nodes.old.items nodes.new.items }
{
    let Some(choice) = node.choices.next() else {
        return;
    };
    let part = grown(&node.partial, choice, pattern);
    nodes.push(node);
    match part {
        Some(partial) => nodes.push(Node::of(partial)),
        None => {}
    }
}

// The next overlay of those that the nodes have left.
fn next_overlay(pattern: &Perm, nodes: &mut ArrayVec<Node, MAX_OVERLAY_LENGTH>) -> Option<Perm>
    requires few { length pattern.now < MAX_OVERLAY_LENGTH }
    requires nodes { AreNodes pattern.now 0 nodes.old.items }
    ensures nodes { AreNodes pattern.now 0 nodes.new.items }
    ensures next { IsNext pattern.now nodes.old.items nodes.new.items result }
{
    while let Some(node) = nodes.pop() {
        if node.partial.places.len() == pattern.len() {
            return Some(node.partial.word);
        }
        take_choice(pattern, node, nodes);
    }
    None
}

/// The overlays of two words that are left: the words in which an occurrence of the one and an occurrence of the other have
/// together all places. A word may come more than once. It takes no memory.
#[derive(Drop)]
pub struct Overlays<'a> {
    pattern: &'a Perm,
    // From the first word on, the partial overlays with a choice left, each grown from the one before.
    nodes: ArrayVec<Node, MAX_OVERLAY_LENGTH>,
}

impl<'a> Model for Overlays<'a> {
    ghost use Rattle.std.specs.Prelude.{ℕ, ◌<◌, List, length};

    ghost Value = { List (List ℕ) };

    ghost use Rattle.av_union.specs.declared.limits.TheConstants.{MAX_OVERLAY_LENGTH};
    ghost use Rattle.av_union.specs.Nodes.{AreNodes, nodes_left};

    ghost view = { λ o. nodes_left o.pattern.now o.nodes.items };

    ghost invariant = { λ o. AreNodes o.pattern.now 0 o.nodes.items × (length o.pattern.now < MAX_OVERLAY_LENGTH) };
}

impl<'a> Overlays<'a> {
    /// All overlays of two words, which have together at most `MAX_OVERLAY_LENGTH` entries: exactly the words that the two
    /// cover, each at least once, in any order.
    pub fn new(a: &'a Perm, b: &'a Perm) -> Overlays<'a>
        requires { length a.now + length b.now ≤ MAX_OVERLAY_LENGTH }
        ensures { (w : List ℕ) → In w result ↔ IsCovered a.entry.now b.entry.now w }
    {
        let _first = a.len();
        let mut nodes = ArrayVec::new();
        nodes.push(Node::of(Partial::of(a)));
        Overlays { pattern: b, nodes }
    }
}

impl<'a> Iterator for Overlays<'a> {
    type Item = Perm;

    ghost next_gives = { YieldsFirst (λ o. o) };

    ghost remaining = { item_count (λ o. o) };

    /// The next overlay. None comes exactly after the last.
    fn next(&mut self) -> Option<Perm> {
        next_overlay(self.pattern, &mut self.nodes)
    }
}
