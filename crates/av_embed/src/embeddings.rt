// The embeddings of a pattern in a root, one at a time.
ghost use Rattle.std.specs.Prelude.{◌≡◌, ℕ, ◌+◌, ◌<◌, ◌≤◌, ◌↔◌, List, [], ◌∷◌, ◌++◌, length, true, false, IsTrue};
ghost use Rattle.std.specs.Iterator.{YieldsFirst, item_count};
ghost use Rattle.av_perm.specs.Word.{is_perm};
ghost use Rattle.av_embed.specs.Embed.{IsEmbedding, embeddings};
ghost use Rattle.av_embed.specs.Left.{IsBegun, StandsAt, embeddings_from, embeddings_after};

use crate::map::Map;
use arrayvec::ArrayVec;
use av_perm::{MAX_PATTERN_LENGTH, MAX_ROOT_LENGTH, Perm};
use std::marker::Model;

/// The embeddings of a pattern in a root that are left, in lexicographic order as maps. It takes no memory.
#[derive(Drop)]
pub struct Embeddings<'a> {
    pattern: &'a Perm,
    root: &'a Perm,
    // The search stands before the maps that begin with these children and go on with the child `from`.
    children: ArrayVec<u8, MAX_PATTERN_LENGTH>,
    from: u8,
}

impl<'a> Model for Embeddings<'a> {
    ghost use Rattle.std.specs.Prelude.{ℕ, ◌+◌, ◌≤◌, List, [], ◌∷◌, ◌++◌, length};

    ghost Value = { List (List ℕ) };

    ghost use Rattle.av_perm.specs.declared.limits.TheConstants.{MAX_PATTERN_LENGTH, MAX_ROOT_LENGTH};
    ghost use Rattle.av_embed.specs.Left.{StandsAt, embeddings_from};

    ghost view = { λ e. embeddings_from e.root.now e.pattern.now (e.children.items ++ e.from ∷ []) };

    ghost invariant = { λ e. StandsAt e.root.now e.pattern.now e.children.items e.from × (length e.pattern.now ≤ MAX_PATTERN_LENGTH) × (length e.root.now ≤ MAX_ROOT_LENGTH) };
}

impl<'a> Embeddings<'a> {
    /// All embeddings of a pattern of length 1 to `MAX_PATTERN_LENGTH` in a root of length 2 to `MAX_ROOT_LENGTH`.
    pub fn new(pattern: &'a Perm, root: &'a Perm) -> Embeddings<'a>
        requires some { 1 ≤ length pattern.now }
        requires few { length pattern.now ≤ MAX_PATTERN_LENGTH }
        requires root { 2 ≤ length root.now }
        requires small { length root.now ≤ MAX_ROOT_LENGTH }
        ensures { result ≡ embeddings root.entry.now pattern.entry.now }
    {
        Embeddings {
            pattern,
            root,
            children: ArrayVec::new(),
            from: 1,
        }
    }
}

impl<'a> Iterator for Embeddings<'a> {
    type Item = Map;

    ghost next_gives = { YieldsFirst (λ e. e) };

    ghost remaining = { item_count (λ e. e) };

    fn next(&mut self) -> Option<Map> {
        if !advance(self.pattern, self.root, &mut self.children, self.from) {
            self.from = self.root.len() as u8 + 1;
            return None;
        }
        let map = Map::of(&self.children);
        self.from = self.children.pop().unwrap() + 1;
        Some(map)
    }
}

// Whether the next place of the pattern may go to a child: whether its entry lies to each entry that goes to another child
// as the root's entries at the two children lie.
fn may_go(pattern: &[u8], root: &[u8], children: &[u8], child: u8) -> bool
    requires pattern { IsTrue (is_perm pattern.now) }
    requires root { IsTrue (is_perm root.now) }
    requires stands { StandsAt root.now pattern.now children.now child }
    requires child { child ≤ length root.now }
    ensures { IsTrue result ↔ IsBegun root.now pattern.now (children.now ++ child ∷ []) }
{
    let entry = pattern[children.len()];
    for i in 0..children.len() {
        let other = children[i];
        if other != child
            && (pattern[i] < entry) != (root[other as usize - 1] < root[child as usize - 1])
        {
            return false;
        }
    }
    true
}

// Completes the children to the first embedding that begins with them and goes on with a child of at least `from`. Where
// there is none, the children stay.
fn complete(
    pattern: &Perm,
    root: &Perm,
    children: &mut ArrayVec<u8, MAX_PATTERN_LENGTH>,
    from: u8,
) -> bool
    requires few { length pattern.now ≤ MAX_PATTERN_LENGTH }
    requires small { length root.now ≤ MAX_ROOT_LENGTH }
    requires stands { StandsAt root.now pattern.now children.old.items from }
    ensures whole { result ≡ true → IsEmbedding root.now pattern.now children.new.items }
    ensures found { result ≡ true → embeddings_from root.now pattern.now (children.old.items ++ from ∷ []) ≡ children.new.items ∷ embeddings_after root.now pattern.now children.new.items }
    ensures missed { result ≡ false → embeddings_from root.now pattern.now (children.old.items ++ from ∷ []) ≡ embeddings_from root.now pattern.now (children.old.items ++ (length root.now + 1) ∷ []) }
    ensures kept { result ≡ false → children.new.items ≡ children.old.items }
{
    let places = pattern.len();
    let end = root.len() as u8 + 1;
    for child in from..end {
        if may_go(
            pattern.as_slice(),
            root.as_slice(),
            children.as_slice(),
            child,
        ) {
            children.push(child);
            if children.len() == places || complete(pattern, root, children, child) {
                return true;
            }
            children.pop();
        }
    }
    false
}

// Moves to the first embedding that doesn't come before the children with the child `from` after them. Where there is
// none, no children stay.
fn advance(
    pattern: &Perm,
    root: &Perm,
    children: &mut ArrayVec<u8, MAX_PATTERN_LENGTH>,
    mut from: u8,
) -> bool
    requires few { length pattern.now ≤ MAX_PATTERN_LENGTH }
    requires small { length root.now ≤ MAX_ROOT_LENGTH }
    requires stands { StandsAt root.now pattern.now children.old.items from }
    ensures whole { result ≡ true → IsEmbedding root.now pattern.now children.new.items }
    ensures found { result ≡ true → embeddings_from root.now pattern.now (children.old.items ++ from ∷ []) ≡ children.new.items ∷ embeddings_after root.now pattern.now children.new.items }
    ensures over { result ≡ false → embeddings_from root.now pattern.now (children.old.items ++ from ∷ []) ≡ [] }
    ensures none { result ≡ false → children.new.items ≡ [] }
{
    while !complete(pattern, root, children, from) {
        match children.pop() {
            Some(child) => from = child + 1,
            None => return false,
        }
    }
    true
}
