// Boxes that are known, and the walk over boxes against the split.
ghost use Rattle.std.specs.Prelude.{◌≡◌, ◌≤◌, length, All, true};

use crate::system_parts::name_of;
use crate::words::{TEN, THREE, are_short, word_of, words_of};
use av_perm::{MAX_PATTERN_LENGTH, MAX_ROOT_LENGTH, Memory, Perm};
use av_split::{BoxList, Boxes, SplitBox, split};
use av_sys::{Name, Sign};
use std::alloc::Global;
use std::test::Fail;

/// Whether the root and the words of the name have the lengths that a split and a walk take.
pub fn can_split(root: &Perm, name: &Name) -> bool
    ensures root { result ≡ true → 2 ≤ length root.now }
    ensures small { result ≡ true → length root.now ≤ MAX_ROOT_LENGTH }
    ensures avoid { result ≡ true → All (λ w. length w ≤ MAX_PATTERN_LENGTH) name.now.avoid }
    ensures require { result ≡ true → All (λ w. length w ≤ MAX_PATTERN_LENGTH) name.now.require }
{
    if root.len() < 2 || root.len() > MAX_ROOT_LENGTH {
        return false;
    }
    are_short(&name.avoid) && are_short(&name.require)
}

/// The boxes, where the lengths are those.
pub fn boxes_of(alloc: Global, root: &Perm, name: &Name) -> Result<Option<BoxList>, Memory> {
    if !can_split(root, name) {
        return Ok(None);
    }
    Ok(Some(split(alloc, root, name)?))
}

// Whether the constraint of a child of a box avoids and requires the words of two texts.
fn has(
    alloc: Global,
    boxes: &BoxList,
    i: usize,
    child: usize,
    avoid: &str,
    require: &str,
) -> Result<bool, Fail> {
    if i >= boxes.len() || child >= boxes.get(i).len() {
        return Ok(false);
    }
    let found = boxes.get(i).get(child);
    Ok(found.avoid == words_of(alloc, avoid)? && found.require == words_of(alloc, require)?)
}

/// Whether two boxes are equal.
pub fn same_box(a: &SplitBox, b: &SplitBox) -> bool {
    if a.len() != b.len() {
        return false;
    }
    for i in 0..a.len() {
        if a.get(i) != b.get(i) {
            return false;
        }
    }
    true
}

// Whether the walk gives this box next.
fn gives(walk: &mut Boxes<'_>, each: &SplitBox) -> Result<bool, Memory> {
    match walk.next() {
        Some(found) => Ok(same_box(&found?, each)),
        None => Ok(false),
    }
}

// Whether the walk gives these boxes, in their order, and then ends.
fn gives_all(walk: &mut Boxes<'_>, boxes: &BoxList) -> Result<bool, Memory> {
    for i in 0..boxes.len() {
        if !gives(walk, boxes.get(i))? {
            return Ok(false);
        }
    }
    Ok(walk.next().is_none())
}

// How many boxes the split gives, where the walk gives the same.
fn walked(alloc: Global, root: &Perm, name: &Name) -> Result<Option<usize>, Memory> {
    if !can_split(root, name) {
        return Ok(None);
    }
    let boxes = split(alloc, root, name)?;
    let mut walk = Boxes::new(alloc, root, name)?;
    if gives_all(&mut walk, &boxes)? {
        Ok(Some(boxes.len()))
    } else {
        Ok(None)
    }
}

// Of the boxes of 12 and `THREE`: the number of a box, a child, and the words that it avoids and requires.
static WORKED: [(usize, usize, &str, &str); 4] = [
    (0, 0, "21", ""),
    (0, 1, THREE, ""),
    (1, 0, THREE, "21"),
    (1, 1, "21", ""),
];

#[test]
fn the_worked_split(rt: HostRuntime) -> Result<(), Fail> {
    let Some(boxes) = boxes_of(
        rt.alloc(),
        &word_of(rt.alloc(), "12")?,
        &name_of(rt.alloc(), Sign::C, THREE, "")?,
    )?
    else {
        return Err(Fail::new("no boxes"));
    };
    assert_eq!(rt; boxes.len(), 2);
    for (i, child, avoid, require) in &WORKED {
        assert!(rt; has(rt.alloc(), &boxes, *i, *child, avoid, require)?);
    }
    Ok(())
}

/// Each root and name of the systems of four classes, those that avoid 132, `THREE`, `TEN`, and 123 and 132: a root, the
/// words to avoid and to require, and how many boxes they have.
pub static SYSTEMS: [(&str, &str, &str, usize); 20] = [
    ("12", "132", "", 1),
    ("21", "132", "", 1),
    ("12", "21", "", 1),
    ("21", "21", "", 0),
    ("12", THREE, "", 2),
    ("21", THREE, "", 1),
    ("12", THREE, "21", 2),
    ("21", THREE, "21", 1),
    ("12", "21", "", 1),
    ("21", "21", "", 0),
    ("12", TEN, "", 1),
    ("21", TEN, "", 1),
    ("2413", TEN, "", 1),
    ("3142", TEN, "", 1),
    ("12", "123 132", "", 1),
    ("21", "123 132", "", 1),
    ("12", "12", "", 0),
    ("21", "12", "", 1),
    ("12", "12 21", "", 0),
    ("21", "12 21", "", 0),
];

#[test]
fn the_walk_gives_the_boxes_of_the_split(rt: HostRuntime) -> Result<(), Fail> {
    for (root, avoid, require, count) in &SYSTEMS {
        let root = word_of(rt.alloc(), root)?;
        let name = name_of(rt.alloc(), Sign::C, avoid, require)?;
        assert_eq!(rt; walked(rt.alloc(), &root, &name)?, Some(*count));
    }
    Ok(())
}
