// The boxes against a plain filter over all lists of short blocks.
use crate::splits::boxes_of;
use crate::system_parts::name_of;
use crate::words::{word_of, words_of};
use av_match::{avoids_all, contains};
use av_perm::{Memory, Perm, Words};
use av_split::{BoxList, SplitBox};
use av_sys::{Name, Sign};
use std::alloc::Global;
use std::test::Fail;

// Whether the word avoids each word of the first list and contains each of the second.
fn meets(avoid: &Words, require: &Words, word: &Perm) -> bool {
    avoids_all(word, avoid)
        && require
            .as_slice()
            .iter()
            .all(|pattern| contains(word, pattern))
}

// Each list followed by each word.
fn longer(alloc: Global, lists: &[Words], words: &Words) -> Result<Vec<Words>, Memory> {
    let mut all = Vec::new(alloc);
    for list in lists {
        for word in words.as_slice() {
            let mut longer = list.copy(alloc)?;
            longer.push(word.copy())?;
            all.push(longer).map_err(|_| Memory)?;
        }
    }
    Ok(all)
}

// All lists of as many words as the root has entries, taken from some words.
fn all_blocks(alloc: Global, root: &Perm, words: &Words) -> Result<Vec<Words>, Memory> {
    let mut all = Vec::new(alloc);
    all.push(Words::empty(alloc)).map_err(|_| Memory)?;
    for _entry in root.as_slice() {
        all = longer(alloc, &all, words)?;
    }
    Ok(all)
}

// The inflation, from numbers that lie as its entries do: those of a block in order, after those of smaller root entries.
fn inflation(alloc: Global, root: &Perm, blocks: &Words) -> Result<Perm, Fail> {
    let mut numbers: Vec<u8> = Vec::new(alloc);
    for (entry, block) in root.as_slice().iter().zip(blocks.as_slice()) {
        for own in block.as_slice() {
            numbers.push(entry.saturating_mul(8).saturating_add(*own))?;
        }
    }
    let mut entries: Vec<u8> = Vec::new(alloc);
    for number in &numbers {
        let mut rank: u8 = 1;
        for other in &numbers {
            if other < number {
                rank = rank.saturating_add(1);
            }
        }
        entries.push(rank)?;
    }
    Ok(Perm::from_entries(&entries)?)
}

// Whether each block meets the constraint of its child.
fn lies_in(each: &SplitBox, blocks: &Words) -> bool {
    each.len() == blocks.len()
        && (0..each.len()).all(|i| meets(&each.get(i).avoid, &each.get(i).require, blocks.get(i)))
}

// How many boxes the blocks lie in.
fn count(boxes: &BoxList, blocks: &Words) -> usize {
    let mut count: usize = 0;
    for i in 0..boxes.len() {
        if lies_in(boxes.get(i), blocks) {
            count = count.saturating_add(1);
        }
    }
    count
}

// Whether the blocks lie in one box where the name lets their inflation through, and in none otherwise.
fn is_right(
    alloc: Global,
    root: &Perm,
    name: &Name,
    boxes: &BoxList,
    blocks: &Words,
) -> Result<bool, Fail> {
    let inflation = inflation(alloc, root, blocks)?;
    let due = if meets(&name.avoid, &name.require, &inflation) {
        1
    } else {
        0
    };
    Ok(count(boxes, blocks) == due)
}

// Whether this holds of all lists of blocks taken from some words.
fn is_exact(alloc: Global, root: &Perm, name: &Name, words: &Words) -> Result<bool, Fail> {
    let Some(boxes) = boxes_of(alloc, root, name)? else {
        return Ok(false);
    };
    for blocks in &all_blocks(alloc, root, words)? {
        if !is_right(alloc, root, name, &boxes, blocks)? {
            return Ok(false);
        }
    }
    Ok(true)
}

// Six words of length 6.
const SIX: &str = "123465 246135 654312 351624 132546 415263";

// A root, the words to avoid and to require, and the blocks that are tried.
static FILTERED: [(&str, &str, &str, &str); 12] = [
    ("12", "132", "", "1 12 21 132 231 321"),
    ("12", "321 2143", "", "1 12 21 132 231 321"),
    ("12", "321", "2143", "1 12 21 132 231 321"),
    ("12", "", "132 213", "1 12 21 132 231 321"),
    ("21", "231", "", "1 12 21 213 231 123"),
    ("21", "3412", "213", "1 12 21 213 231 123"),
    ("2413", "321", "", "1 12 21"),
    ("2413", "2143", "123 321", "1 12 21"),
    ("3142", "", "1324 4231", "1 12 21"),
    ("25314", "3421 2143", "132", "1 12 21"),
    ("2413", SIX, "", "1 12 21"),
    ("25314", SIX, "", "1 12 21"),
];

#[test]
fn boxes_are_exact(rt: HostRuntime) -> Result<(), Fail> {
    for (root, avoid, require, blocks) in &FILTERED {
        let root = word_of(rt.alloc(), root)?;
        let name = name_of(rt.alloc(), Sign::C, avoid, require)?;
        let blocks = words_of(rt.alloc(), blocks)?;
        assert!(rt; is_exact(rt.alloc(), &root, &name, &blocks)?);
    }
    Ok(())
}
