// Boxes that are cut by hand, as they are advised, against the split.
use crate::splits::{SYSTEMS, can_split, same_box};
use crate::system_parts::name_of;
use crate::words::word_of;
use av_name::{Known, known_of};
use av_perm::{Memory, Perm};
use av_split::{Advice, BoxList, SplitBox, advise, split};
use av_sys::{Name, Sign};
use std::alloc::Global;
use std::test::Fail;

// The boxes found, and those that are still to be looked at, with the next one last.
#[derive(Drop)]
struct Hand {
    found: Vec<SplitBox>,
    left: Vec<SplitBox>,
}

/// Cuts a box at a child, counted from 0, into the part in which this contains the pattern and the one in which it avoids it, and
/// leaves these. Answers whether there is the child and nothing is known there of the pattern.
pub fn cut(
    alloc: Global,
    cell: &SplitBox,
    child: usize,
    pattern: &Perm,
    left: &mut Vec<SplitBox>,
) -> Result<bool, Memory> {
    if child >= cell.len() || known_of(cell.get(child), pattern) != Known::Open {
        return Ok(false);
    }
    let child = child + 1;
    left.push(cell.requiring(alloc, child, pattern)?)
        .map_err(|_| Memory)?;
    left.push(cell.avoiding(alloc, child, pattern)?)
        .map_err(|_| Memory)?;
    Ok(true)
}

// Looks at a box. Answers whether it was advised well.
fn look(
    alloc: Global,
    root: &Perm,
    name: &Name,
    cell: SplitBox,
    hand: &mut Hand,
) -> Result<bool, Memory> {
    if !can_split(root, name) || cell.len() != root.len() {
        return Ok(false);
    }
    match advise(root, name, &cell) {
        Advice::Broken => Ok(true),
        Advice::Done => {
            hand.found.push(cell).map_err(|_| Memory)?;
            Ok(true)
        }
        Advice::Ask { child, pattern } => {
            if child == 0 {
                return Ok(false);
            }
            cut(alloc, &cell, child as usize - 1, &pattern, &mut hand.left)
        }
    }
}

// The boxes that are found by hand in as many steps at most.
fn by_hand(alloc: Global, root: &Perm, name: &Name) -> Result<Option<Vec<SplitBox>>, Memory> {
    if !can_split(root, name) {
        return Ok(None);
    }
    let mut hand = Hand {
        found: Vec::new(alloc),
        left: Vec::new(alloc),
    };
    hand.left
        .push(SplitBox::free(alloc, root.len())?)
        .map_err(|_| Memory)?;
    for _ in 0..1000 {
        let Some(cell) = hand.left.pop() else {
            return Ok(Some(hand.found));
        };
        if !look(alloc, root, name, cell, &mut hand)? {
            return Ok(None);
        }
    }
    Ok(None)
}

// Whether two lists have the same boxes.
fn same_boxes(a: &BoxList, b: &[SplitBox]) -> bool {
    if a.len() != b.len() {
        return false;
    }
    for i in 0..a.len() {
        if !same_box(a.get(i), &b[i]) {
            return false;
        }
    }
    true
}

// Whether the boxes by hand are those of the split.
fn agrees(alloc: Global, root: &Perm, name: &Name) -> Result<bool, Memory> {
    if !can_split(root, name) {
        return Ok(false);
    }
    let boxes = split(alloc, root, name)?;
    match by_hand(alloc, root, name)? {
        Some(found) => Ok(same_boxes(&boxes, &found)),
        None => Ok(false),
    }
}

#[test]
fn boxes_by_hand(rt: HostRuntime) -> Result<(), Fail> {
    for (root, avoid, require, _count) in &SYSTEMS {
        let root = word_of(rt.alloc(), root)?;
        let name = name_of(rt.alloc(), Sign::C, avoid, require)?;
        assert!(rt; agrees(rt.alloc(), &root, &name)?);
    }
    let root = word_of(rt.alloc(), "25314")?;
    let name = name_of(rt.alloc(), Sign::C, "3421 2143", "132")?;
    assert!(rt; agrees(rt.alloc(), &root, &name)?);
    Ok(())
}

// Of the box of 12 in which nothing is avoided or required, where 132 is to be avoided, its first embedding is asked: all of it
// in the first child.
#[test]
fn the_worked_advice(rt: HostRuntime) -> Result<(), Fail> {
    let root = word_of(rt.alloc(), "12")?;
    let name = name_of(rt.alloc(), Sign::C, "132", "")?;
    let cell = SplitBox::free(rt.alloc(), 2)?;
    if !can_split(&root, &name) || cell.len() != root.len() {
        return Err(Fail::new("no lengths for a split"));
    }
    let Advice::Ask { child, pattern } = advise(&root, &name, &cell) else {
        return Err(Fail::new("no open box"));
    };
    assert_eq!(rt; child, 1);
    assert!(rt; pattern == word_of(rt.alloc(), "132")?);
    Ok(())
}
